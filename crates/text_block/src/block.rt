// The form of a text block: zero to 64 pairs NAME=VALUE, each followed by one zero byte.
ghost use Rattle.std.specs.Prelude.{◌≡◌};
ghost use Rattle.text.specs.Text.{all};
ghost use Rattle.text_block.specs.Block.{name_byte, good_name, good_first, whole_first, formed};
ghost use Rattle.text_block.specs.Promises.{SpanOf};

use text::slice::find;

pub const MAX_PAIRS: usize = 64;

// The most bytes of a value.
const MAX_VALUE: usize = 255;

// The most bytes of a name.
const MAX_NAME: usize = 63;

// Each byte of a name stands at its own place, and a comma at every other place. With comparisons a name of 19 bytes took 28 ns and not 17, and the
// form of 64 pairs 2,880 ns and not 1,880.
static NAME_BYTES: [u8; 256] = *b"\
    ,,,,,,,,,,,,,,,,,,,,,,,,,,,,,,,,\
    ,,,,,,,,,,,+,-.,0123456789,,,,,,\
    @ABCDEFGHIJKLMNOPQRSTUVWXYZ,,,,_\
    ,abcdefghijklmnopqrstuvwxyz,,,,,\
    ,,,,,,,,,,,,,,,,,,,,,,,,,,,,,,,,\
    ,,,,,,,,,,,,,,,,,,,,,,,,,,,,,,,,\
    ,,,,,,,,,,,,,,,,,,,,,,,,,,,,,,,,\
    ,,,,,,,,,,,,,,,,,,,,,,,,,,,,,,,,";

// A byte that a name may have.
fn is_name_byte(b: u8) -> bool
    ensures { result ≡ name_byte b }
{
    NAME_BYTES[b as usize] != b','
}

#[tactic(auto, using(text::proofs::Words::all_is_list_all))]
fn name_bytes(s: &[u8]) -> bool
    ensures { result ≡ all name_byte s.now }
{
    s.iter().all(|b| is_name_byte(*b))
}

// The form of a name: an upper-case letter, or X#, and then name bytes.
#[tactic(auto, using(crate::proofs::Pairs::good_upper), unfolding(crate::specs::Block::good_name))]
pub fn name_good(s: &[u8]) -> bool
    ensures { result ≡ good_name s.now }
{
    if MAX_NAME < s.len() {
        return false;
    }
    match s {
        [b'X', b'#', tail @ ..] => name_bytes(tail),
        [b'A'..=b'Z', tail @ ..] => name_bytes(tail),
        _ => false,
    }
}

// Where the first pair of a text ends its name and its value: before the first =, and before the first zero byte after that; with the text
// where there is none. Places and no slices: `SpanOf` speaks of places, and an answer begins with name and = together.
#[derive(Clone, Copy)]
pub struct Span {
    pub eq: usize,
    pub end: usize,
}

// The first pair of a text, whatever its name is: an Err, with where it ends all the same, where no = is there, the value is too long, or no
// zero byte follows it.
#[tactic(auto, using(crate::proofs::Pairs::cut))]
pub fn cut_pair(s: &[u8]) -> Result<Span, Span>
    ensures { SpanOf s.now (whole_first s.now) result }
{
    let eq = find(s, b'=');
    if eq == s.len() {
        return Err(Span { eq, end: eq });
    }
    let tail = &s[eq + 1..];
    let n = find(tail, 0);
    let p = Span {
        eq,
        end: eq + 1 + n,
    };
    if MAX_VALUE < n || n == tail.len() {
        return Err(p);
    }
    Ok(p)
}

// The same of the whole form, the name's too.
#[tactic(auto, using(crate::proofs::Pairs::named_first))]
fn first_pair(s: &[u8]) -> Result<Span, Span>
    ensures { SpanOf s.now (good_first s.now) result }
{
    let p = cut_pair(s)?;
    if name_good(&s[..p.eq]) { Ok(p) } else { Err(p) }
}

// The form of a whole block.
#[tactic(auto, using(crate::proofs::Pairs::turns))]
pub fn well_formed(s: &[u8]) -> bool
    ensures { result ≡ formed 64 s.now }
{
    let mut rest = s;
    for _ in 0..MAX_PAIRS {
        if rest.is_empty() {
            return true;
        }
        let Ok(p) = first_pair(rest) else {
            return false;
        };
        rest = &rest[p.end + 1..];
    }
    rest.is_empty()
}
