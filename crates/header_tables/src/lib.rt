// The headers of the twelve kinds as tables of fields, as RFC 7143 draws them: a second view of them, beside the definitions by offset that
// the reader and the writer are proved against. There is no code here, only tables (specs/) and laws (proofs/).
#![tactic(auto)]
