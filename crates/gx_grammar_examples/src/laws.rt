// Laws of the small languages.

ghost use Rattle.gx_grammar.specs.Derivation.{Derives};
ghost use Rattle.gx_grammar.specs.Language.{Made};
ghost use Rattle.gx_grammar.specs.Reading.{Faulty, Unfit};
ghost use Rattle.gx_grammar.specs.Text.{IsReadable, IsVerdict};
ghost use Rattle.gx_grammar.specs.Value.{node};
ghost use Rattle.gx_grammar_examples.specs.Direct.{a_tree, attribute, direct, direct_text, element, enclosed, no_tree, numeral, read_direct, text};
ghost use Rattle.gx_grammar_examples.specs.Steps.{an_argument, binary, call, conditional, literal, name_step, no_argument, read_steps, steps, steps_text, wildcard};
ghost use Rattle.gx_grammar_examples.specs.Tokens.{IsTree};
ghost use Rattle.std.specs.Prelude.{◌≡◌, codes, Err, IsOk, List, [], Ok, ℕ};

/// Each text is read exactly: to its one value, exactly where it has one, or else to the end of the longest front of it that
/// opens an expression. Values are trees.
pub fn steps_are_readable()
    ensures readable { IsReadable steps steps_text }
    ensures verdict { (text : List ℕ) → IsVerdict steps steps_text text (read_steps text) }
    ensures tree { (text : List ℕ) (v : Made steps) → Derives steps steps_text v text [] → IsTree v }
    ensures one_tree { (text : List ℕ) (v w : Made steps) → Derives steps steps_text v text [] → Derives steps steps_text w text [] → v ≡ w }
{}

/// Each text is read exactly: to its one value, exactly where it has one; to the place where a fourth element would begin in
/// three others; or else to the end of the longest front of it that opens an element. Values are trees.
pub fn direct_elements_are_readable()
    ensures readable { IsReadable direct direct_text }
    ensures verdict { (text : List ℕ) → IsVerdict direct direct_text text (read_direct text) }
    ensures tree { (text : List ℕ) (v : Made direct) → Derives direct direct_text v text [] → IsTree v }
    ensures one_tree { (text : List ℕ) (v w : Made direct) → Derives direct direct_text v text [] → Derives direct direct_text w text [] → v ≡ w }
{}

/// Each word is also a name, a name goes on as far as it can, and no call has the name `if`.
pub fn steps_texts_are_read()
    ensures words { read_steps (codes "if div if/div div div - else") ≡ Ok (node (binary (codes "-") (binary (codes "div") (binary (codes "div") (name_step (codes "if")) (binary (codes "/") (name_step (codes "if")) (name_step (codes "div")))) (name_step (codes "div"))) (name_step (codes "else")))) }
    ensures wildcards { read_steps (codes "* * */* *a-b") ≡ Ok (node (binary (codes "*") (binary (codes "*") wildcard (binary (codes "/") wildcard wildcard)) (name_step (codes "a-b")))) }
    ensures branches { read_steps (codes "if (a/if) then then else f(*, 2)") ≡ Ok (node (conditional (binary (codes "/") (name_step (codes "a")) (name_step (codes "if"))) (name_step (codes "then")) (call (codes "f") (an_argument wildcard (an_argument (literal (codes "2")) no_argument))))) }
    ensures comments { read_steps (codes "(: a (: b :) :) 3-f( )") ≡ Ok (node (binary (codes "-") (literal (codes "3")) (call (codes "f") no_argument))) }
    ensures no_operator { read_steps (codes "if if/div if div div - else") ≡ Err (Unfit 24) }
    ensures no_branch { read_steps (codes "if (a)") ≡ Err (Unfit 0) }
    ensures no_call { read_steps (codes "a/if(b)") ≡ Err (Unfit 2) }
    ensures run_on { read_steps (codes "if (a) thenx else b") ≡ Err (Unfit 8) }
    ensures no_number { read_steps (codes "1x") ≡ Err (Unfit 1) }
{}

/// Quotes and braces that are written twice stand for one, texts that stand side by side are one, and an end tag has the name
/// of its start tag.
pub fn direct_texts_are_read()
    ensures doubled { read_direct (codes "<a b=\"x\"\"{{{1}\" c=\"\" />") ≡ Ok (node (element (codes "a") (a_tree (attribute (codes "b") (a_tree (text (codes "x\"{")) (a_tree (enclosed (a_tree (numeral (codes "1")) no_tree)) no_tree))) (a_tree (attribute (codes "c") no_tree) no_tree)) no_tree)) }
    ensures content { read_direct (codes "<a>x{{y}}{ 1, <b/> (: 2 :) }<c></c ></a>") ≡ Ok (node (element (codes "a") no_tree (a_tree (text (codes "x{y}")) (a_tree (enclosed (a_tree (numeral (codes "1")) (a_tree (element (codes "b") no_tree no_tree) no_tree))) (a_tree (element (codes "c") no_tree no_tree) no_tree))))) }
    ensures three_levels { IsOk (read_direct (codes "<a><b><c></c></b></a>")) }
    ensures other_name { read_direct (codes "<a></b>") ≡ Err (Unfit 2) }
    ensures longer_name { read_direct (codes "<a></ab>") ≡ Err (Unfit 2) }
    ensures no_white_space { read_direct (codes "<a b=\"1\"c=\"2\"/>") ≡ Err (Unfit 7) }
    ensures one_brace { read_direct (codes "<a>}</a>") ≡ Err (Unfit 4) }
    ensures fourth_level { read_direct (codes "<a><b><c><d/></c></b></a>") ≡ Err (Faulty 2 16) }
    ensures fourth_in_braces { read_direct (codes "<a><b c=\"{<d>{<e/>}</d>}\"/></a>") ≡ Err (Faulty 2 17) }
    ensures not_begun { read_direct (codes "<a><b><c><") ≡ Err (Unfit 0) }
    ensures not_reached { read_direct (codes "<a b><c><d><e/>") ≡ Err (Unfit 11) }
{}
