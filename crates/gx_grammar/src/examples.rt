// Small languages that are read exactly, to show what an instance is.

ghost use Rattle.gx_grammar.specs.Limited.{limited, limited_text};
ghost use Rattle.gx_grammar.specs.Reading.{Faulty, Unfit};
ghost use Rattle.gx_grammar.specs.Sums.{sum_text, sums};
ghost use Rattle.gx_grammar.specs.Text.{IsVerdict, read_text};
ghost use Rattle.std.specs.Prelude.{◌≡◌, ◌+◌, ◌≤◌, Err, IsOk, List, codes, length, ℕ};

/// Sums of numbers with `+` and `mod` and with parentheses are read exactly. A word that is cut off, a comment that is not
/// closed and a parenthesis that may begin a comment belong to the longest opening.
pub fn sums_are_read()
    ensures verdict { (levels : ℕ) (text : List ℕ) → 1 + length text ≤ levels → IsVerdict sums sum_text text (read_text sums levels sum_text text) }
    ensures whole { IsOk (read_text sums 9 sum_text (codes "(: (: a :) :) 1+(2 mod 3)")) }
    ensures cut_word { read_text sums 9 sum_text (codes "1 mo") ≡ Err (Unfit 0) }
    ensures other_word { read_text sums 9 sum_text (codes "1 mx") ≡ Err (Unfit 1) }
    ensures run_on { read_text sums 9 sum_text (codes "1 modx") ≡ Err (Unfit 1) }
    ensures no_operand { read_text sums 9 sum_text (codes "(1 + )") ≡ Err (Unfit 1) }
    ensures open_comment { read_text sums 9 sum_text (codes "1 (: (: :) 2") ≡ Err (Unfit 0) }
    ensures parenthesis { read_text sums 9 sum_text (codes "1 (2)") ≡ Err (Unfit 2) }
{}

/// Sums with limits are read exactly: at most three stand in one another, with at most four operands each, of at most three
/// digits. Past a limit the text has a fault, unless it fails before.
pub fn limits_are_met()
    ensures verdict { (levels : ℕ) (text : List ℕ) → 4 + length text ≤ levels → IsVerdict limited limited_text text (read_text limited levels limited_text text) }
    ensures nested { IsOk (read_text limited 30 limited_text (codes "(( 1 ))+2")) }
    ensures too_deep { read_text limited 30 limited_text (codes "(( (1))) x") ≡ Err (Faulty 2 6) }
    ensures too_many { read_text limited 30 limited_text (codes "1+2+3+4+ 5 %") ≡ Err (Faulty 2 3) }
    ensures too_large { read_text limited 30 limited_text (codes "1 + 1234 %") ≡ Err (Faulty 3 6) }
    ensures not_reached { read_text limited 30 limited_text (codes "1 1234") ≡ Err (Unfit 4) }
    ensures nothing_begins { read_text limited 30 limited_text (codes "(((%") ≡ Err (Unfit 1) }
    ensures no_member { read_text limited 30 limited_text (codes "1+2+3+4+") ≡ Err (Unfit 0) }
{}
