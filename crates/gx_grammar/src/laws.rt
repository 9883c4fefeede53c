// Laws of grammars, of their tokens, and of reading.

ghost use Rattle.gx_base.specs.declared.place.Place.{Place};
ghost use Rattle.gx_grammar.specs.Apart.{HasShape, OpensWord, Shape, Spells, all_apart, all_words_apart, is, shape_begins, words_begin};
ghost use Rattle.gx_grammar.specs.Decoding.{IsUnreadableAt};
ghost use Rattle.gx_grammar.specs.Decision.{BeforeCut, Chooses, Decides, Repeats, Shortens, Texts, Until};
ghost use Rattle.gx_grammar.specs.Avoiding.{Avoids};
ghost use Rattle.gx_grammar.specs.Derivation.{Derives};
ghost use Rattle.gx_grammar.specs.Either.{IsEither, IsMapped, OpensEither, scan_either, scan_mapped, seen_either};
ghost use Rattle.gx_grammar.specs.First.{AllOf, AreApart, AreFronts, BeginsWith, CharacterChooses, EndsOrStarts, Fronts, HasHead, IsIn, IsSorted, TokensChoose, by_character, by_tokens, first_behind, first_of, head_passes};
ghost use Rattle.gx_grammar.specs.Fitting.{IsEmpty, IsFitting, Never, fault_of, scan_fitting, scan_never};
ghost use Rattle.gx_grammar.specs.Gaps.{IsGap, OpensGap, scan_gap, seen_gap};
ghost use Rattle.gx_grammar.specs.Grammar.{Guard, ◌&◌, choose, empty, keyed, made, token};
ghost use Rattle.gx_grammar.specs.Halting.{Halts};
ghost use Rattle.gx_grammar.specs.Joined.{AreJoined, IsOptional, OpensJoined, Tells, scan_joined, scan_optional, seen_joined};
ghost use Rattle.gx_grammar.specs.Language.{Language, Made, Part};
ghost use Rattle.gx_grammar.specs.Laws.{IsExact, LawfulTokens};
ghost use Rattle.gx_grammar.specs.Leftmost.{Leftmost};
ghost use Rattle.gx_grammar.specs.Levels.{HasRanksBelow, IsLevelled, IsNotTooDeep, IsShielded, Takings, takes_some};
ghost use Rattle.gx_grammar.specs.Opening.{Opens, OpensUpTo};
ghost use Rattle.gx_grammar.specs.Ran.{IsDone, Looked, Makes, Ran, Standing, left_of};
ghost use Rattle.gx_grammar.specs.Reading.{Reading, Refusal, State, go_on, notes, read_token, read_with, reads, repeat, start};
ghost use Rattle.gx_grammar.specs.Text.{AllDecide, IsReadable, IsVerdict, read_text};
ghost use Rattle.gx_grammar.specs.Tokens.{IsFrontOf, IsNamed, IsRun, IsWord, LawfulToken, all_pass, behind_common, behind_run, no_fault, opens_name, opens_run, run_of, scan_name, scan_run, scan_word, seen_name, seen_run, seen_word};
ghost use Rattle.gx_grammar.specs.Value.{Value, an_item, no_item, nothing, pair};
ghost use Rattle.gx_grammar.specs.Walks.{IsWalk, Walk, behind_walk, opens_walk, scan_walk, seen_walk};
ghost use Rattle.gx_grammar.specs.Words.{Entry, IsOneOf, OpensOneOf, scan_one_of, seen_one_of, spellings};
ghost use Rattle.std.specs.List.{list_all};
ghost use Rattle.std.specs.Prelude.{◌≡◌, ◌<◌, ◌≤◌, ◌+◌, ◌++◌, ◌∷◌, ◌⊎◌, [], Bool, true, false, IfOk, List, None, Ok, Option, Result, if◌then◌else◌, length, suc, take, zero, ℕ};
ghost use Rattle.std.specs.Str.{IsValidUpTo, chars};
ghost use Rattle.gx_grammar.specs.Places.{place_at};

/// A language, for contracts alone.
pub trait HasLanguage {
    /// The tokens, the productions and the grammar of each production.
    ghost language: { Language };
}

/// Where the levels suffice, what a whole text reads as says all of it: its one value, exactly where it has one; or its
/// one fault, exactly where a token has one behind what was read; or else the end of its longest opening.
pub fn read_is_exact<G: HasLanguage>()
    ensures { (A : Part G.language) → IsReadable G.language A → (k : Takings G.language) (levelled : IsLevelled G.language k) (bound : ℕ)
        → HasRanksBelow G.language levelled.rank bound A → (levels : ℕ) (text : List ℕ) → bound + length text ≤ levels
        → IsVerdict G.language A text (read_text G.language levels A text) }
{}

/// Each production is read exactly, at any place of a text: what is read is derived, what is derived is read,
/// and the furthest character that fitted is the end of the longest opening.
pub fn productions_are_exact<G: HasLanguage>()
    ensures { LawfulTokens G.language → AllDecide G.language → (levels : ℕ) (p : G.language.Production)
        → IsExact G.language (G.language.rules p) (G.language.follows p) (G.language.follows_cut p) (reads G.language levels p) }
{}

/// A text has at most one answer.
pub fn one_verdict<G: HasLanguage>()
    ensures { (A : Part G.language) (text : List ℕ) (r q : Result (Made G.language) Refusal)
        → IsVerdict G.language A text r → IsVerdict G.language A text q → r ≡ q }
{}

/// A text has at most one value.
pub fn one_value<G: HasLanguage>()
    ensures { (A : Part G.language) → IsReadable G.language A → (text : List ℕ) (v w : Made G.language)
        → Derives G.language A v text [] → Derives G.language A w text [] → v ≡ w }
{}

/// Each front of a text of the grammar opens the grammar.
pub fn front_opens<G: HasLanguage>()
    ensures { (A : Part G.language) → IsReadable G.language A → (v : Made G.language) (x y : List ℕ)
        → Derives G.language A v (x ++ y) [] → Opens G.language A x }
{}

/// All in front of a fault opens the grammar.
pub fn fault_is_reached<G: HasLanguage>()
    ensures { (A : Part G.language) → IsReadable G.language A → (text z : List ℕ) (code : ℕ) → Halts G.language A text code z
        → OpensUpTo G.language A text (length z) }
{}

/// Where a production begins with productions of lower rank alone, more levels than the rank with the length of the text
/// suffice.
pub fn levels_suffice<G: HasLanguage>()
    ensures { (A : Part G.language) → IsReadable G.language A → (k : Takings G.language) (levelled : IsLevelled G.language k) (bound : ℕ)
        → HasRanksBelow G.language levelled.rank bound A → (levels : ℕ) (text : List ℕ) → bound + length text ≤ levels
        → IsNotTooDeep (read_with G.language (reads G.language levels) A (start text)) }
{}

/// Where the ranks of all productions of a part are low, none needs to stand behind a character.
pub fn low_ranks_shield<G: HasLanguage>()
    ensures { (k : Takings G.language) (rank : G.language.Production → ℕ) (n : ℕ) (A : Part G.language)
        → HasRanksBelow G.language rank n A → IsShielded G.language k rank n A }
{}

/// A grammar whose guards decide by first tokens, or by first characters, is read exactly.
pub fn sorted_is_readable<G: HasLanguage>()
    ensures { (f : Fronts G.language) → LawfulTokens G.language → AreFronts G.language f → (A : Part G.language)
        → ((p : G.language.Production) → IsSorted G.language f (G.language.rules p) (f.next p))
        → IsSorted G.language f A [] → IsReadable G.language A }
{}

/// Texts, for contracts alone.
pub trait HasTexts {
    /// The texts.
    ghost texts: { Texts };
    /// What is left of them where their ends are cut off.
    ghost beginnings: { Texts };
}

/// Where less may follow a grammar, less stands there, whole or cut off, and its guards decide all the more.
pub fn less_may_follow<G: HasLanguage, K: HasTexts, M: HasTexts>()
    ensures stands { (A : Part G.language) → ((y : List ℕ) → M.texts y → K.texts y)
        → (x : List ℕ) → Until G.language A M.texts x → Until G.language A K.texts x }
    ensures begins { (A : Part G.language) → ((y : List ℕ) → M.beginnings y → K.beginnings y)
        → (x : List ℕ) → BeforeCut G.language A M.beginnings x → BeforeCut G.language A K.beginnings x }
    ensures decides { (A : Part G.language) → ((y : List ℕ) → M.texts y → K.texts y) → ((y : List ℕ) → M.beginnings y → K.beginnings y)
        → Decides G.language A K.texts K.beginnings → Decides G.language A M.texts M.beginnings }
{}

/// What ends, or starts with one of some tokens, does so with more tokens, whole or cut off.
pub fn more_tokens_may_start<G: HasLanguage>()
    ensures stands { (ts us : List G.language.Token) (x : List ℕ) → ((u : G.language.Token) → IsIn ts u → IsIn us u)
        → EndsOrStarts G.language.derives G.language.faults ts x → EndsOrStarts G.language.derives G.language.faults us x }
    ensures begins { (ts us : List G.language.Token) (x : List ℕ) → ((u : G.language.Token) → IsIn ts u → IsIn us u)
        → BeginsWith G.language.derives G.language.opens ts x → BeginsWith G.language.derives G.language.opens us x }
{}

/// A grammar with tokens behind it starts with its first tokens, or, where it may be empty, with those.
pub fn first_tokens_start<G: HasLanguage>()
    ensures stands { (f : Fronts G.language) → AreFronts G.language f → (A : Part G.language) (ts : List G.language.Token) (x : List ℕ)
        → Until G.language A (EndsOrStarts G.language.derives G.language.faults ts) x
        → EndsOrStarts G.language.derives G.language.faults (first_behind G.language f A ts) x }
    ensures begins { (f : Fronts G.language) → AreFronts G.language f → (A : Part G.language) (ts : List G.language.Token) (x : List ℕ)
        → BeforeCut G.language A (BeginsWith G.language.derives G.language.opens ts) x
        → BeginsWith G.language.derives G.language.opens (first_behind G.language f A ts) x }
{}

/// Where a grammar stands in front of what may follow it, what is leftmost in it does so too, whole or cut off.
pub fn leftmost_stands<G: HasLanguage>()
    ensures stands { (f : Fronts G.language) → AreFronts G.language f → (F P : Part G.language) (us vs : List G.language.Token)
        → Leftmost G.language f F P us vs → (x : List ℕ)
        → Until G.language P (EndsOrStarts G.language.derives G.language.faults us) x
        → Until G.language F (EndsOrStarts G.language.derives G.language.faults vs) x }
    ensures begins { (f : Fronts G.language) → AreFronts G.language f → (F P : Part G.language) (us vs : List G.language.Token)
        → Leftmost G.language f F P us vs → (x : List ℕ)
        → BeforeCut G.language P (BeginsWith G.language.derives G.language.opens us) x
        → BeforeCut G.language F (BeginsWith G.language.derives G.language.opens vs) x }
{}

/// Tokens are avoided where others start that are apart from them; and one more is where it is avoided alone.
pub fn tokens_are_avoided<G: HasLanguage, K: HasTexts>()
    ensures apart { (f : Fronts G.language) → LawfulTokens G.language → AreFronts G.language f → (ts us : List G.language.Token)
        → AllOf (λ t. f.takings.token_takes t ≡ true) ts → AllOf (λ u. AllOf (λ t. AreApart G.language t u) ts) us
        → Avoids G.language ts (EndsOrStarts G.language.derives G.language.faults us) (BeginsWith G.language.derives G.language.opens us) }
    ensures more { (t : G.language.Token) (ts : List G.language.Token) → Avoids G.language (t ∷ []) K.texts K.beginnings
        → Avoids G.language ts K.texts K.beginnings → Avoids G.language (t ∷ ts) K.texts K.beginnings }
{}

/// Tokens that a grammar avoids are avoided where a value is made of its value. Tokens that some texts avoid are avoided where
/// nothing stands in front of these, and where a grammar does whose first tokens are apart from them.
pub fn tokens_stay_avoided<G: HasLanguage, K: HasTexts>()
    ensures made { (ts : List G.language.Token) (h : ℕ → Made G.language → Made G.language) (A : Part G.language)
        → Avoids G.language ts (Until G.language A K.texts) (BeforeCut G.language A K.beginnings)
        → Avoids G.language ts (Until G.language (made h A) K.texts) (BeforeCut G.language (made h A) K.beginnings) }
    ensures nothing { (ts : List G.language.Token) → Avoids G.language ts K.texts K.beginnings
        → Avoids G.language ts (Until G.language empty K.texts) (BeforeCut G.language empty K.beginnings) }
    ensures behind { (f : Fronts G.language) → LawfulTokens G.language → AreFronts G.language f → (ts : List G.language.Token) (A B : Part G.language)
        → AllOf (λ t. f.takings.token_takes t ≡ true) ts → AllOf (λ u. AllOf (λ t. AreApart G.language t u) ts) (first_of G.language f A)
        → Avoids G.language ts (Until G.language B K.texts) (BeforeCut G.language B K.beginnings)
        → Avoids G.language ts (Until G.language (A & B) K.texts) (BeforeCut G.language (A & B) K.beginnings) }
{}

/// A guard by tokens decides where what stands otherwise avoids them.
pub fn avoided_tokens_decide<G: HasLanguage, K: HasTexts>()
    ensures choice { (f : Fronts G.language) → LawfulTokens G.language → AreFronts G.language f
        → (ts : List G.language.Token) (A B : Part G.language)
        → takes_some G.language f.takings A ≡ true → AllOf (IsIn ts) (first_of G.language f A) → AllOf (λ t. (x : List ℕ) → G.language.opens t x → Opens G.language A x) ts
        → Avoids G.language ts (Until G.language B K.texts) (BeforeCut G.language B K.beginnings)
        → Chooses G.language (by_tokens G.language.scan G.language.faults G.language.seen ts) A B K.texts K.beginnings }
    ensures repetition { (f : Fronts G.language) → LawfulTokens G.language → AreFronts G.language f
        → (ts : List G.language.Token) (A : Part G.language)
        → takes_some G.language f.takings A ≡ true → AllOf (IsIn ts) (first_of G.language f A) → AllOf (λ t. (x : List ℕ) → G.language.opens t x → Opens G.language A x) ts
        → Avoids G.language ts K.texts K.beginnings
        → Repeats G.language (by_tokens G.language.scan G.language.faults G.language.seen ts) A K.texts K.beginnings }
{}

/// A grammar whose guards decide by first tokens, or by first characters, decides; and, where a token ends it, it does so
/// whatever follows.
pub fn sorted_decides<G: HasLanguage, K: HasTexts>()
    ensures before_tokens { (f : Fronts G.language) → LawfulTokens G.language → AreFronts G.language f → (A : Part G.language) (ts : List G.language.Token)
        → IsSorted G.language f A ts → Decides G.language A (EndsOrStarts G.language.derives G.language.faults ts) (BeginsWith G.language.derives G.language.opens ts) }
    ensures ended { (f : Fronts G.language) → LawfulTokens G.language → AreFronts G.language f → (A : Part G.language) (t u : G.language.Token)
        → f.takings.token_takes t ≡ true → IsSorted G.language f A (t ∷ []) → Decides G.language (A & (token t & token u)) K.texts K.beginnings }
{}

/// A grammar that takes a character leaves another text than it was given.
pub fn takings_shorten<G: HasLanguage>()
    ensures { (f : Fronts G.language) → LawfulTokens G.language → AreFronts G.language f → (A : Part G.language)
        → takes_some G.language f.takings A ≡ true → Shortens G.language A }
{}

/// A guard by tokens decides where what stands otherwise is apart from them.
pub fn tokens_decide<G: HasLanguage>()
    ensures choice { (f : Fronts G.language) → LawfulTokens G.language → AreFronts G.language f
        → (ts : List G.language.Token) (A B : Part G.language) (us : List G.language.Token)
        → TokensChoose G.language f ts A B us
        → Chooses G.language (by_tokens G.language.scan G.language.faults G.language.seen ts) A B (EndsOrStarts G.language.derives G.language.faults us) (BeginsWith G.language.derives G.language.opens us) }
    ensures repetition { (f : Fronts G.language) → LawfulTokens G.language → AreFronts G.language f
        → (ts : List G.language.Token) (A : Part G.language) (us : List G.language.Token)
        → TokensChoose G.language f ts A empty us
        → Repeats G.language (by_tokens G.language.scan G.language.faults G.language.seen ts) A (EndsOrStarts G.language.derives G.language.faults us) (BeginsWith G.language.derives G.language.opens us) }
{}

/// A guard by the first character decides where what stands otherwise begins with other characters.
pub fn characters_decide<G: HasLanguage>()
    ensures choice { (f : Fronts G.language) → AreFronts G.language f
        → (test : ℕ → Bool) (A B : Part G.language) (us : List G.language.Token)
        → CharacterChooses G.language f test A B us
        → Chooses G.language (by_character test) A B (EndsOrStarts G.language.derives G.language.faults us) (BeginsWith G.language.derives G.language.opens us) }
    ensures repetition { (f : Fronts G.language) → AreFronts G.language f
        → (test : ℕ → Bool) (A : Part G.language) (us : List G.language.Token)
        → CharacterChooses G.language f test A empty us
        → Repeats G.language (by_character test) A (EndsOrStarts G.language.derives G.language.faults us) (BeginsWith G.language.derives G.language.opens us) }
{}

/// A repetition is one item and then a repetition: what a loop over the items does.
pub fn repetition_goes_by_items<G: HasLanguage>()
    ensures { (g : Guard) (item : State → Reading (Value G.language.Node))
        → ((s : State) → IfOk (item s) (λ o. length o.1.rest < length s.rest))
        → (s : State) → repeat g item (suc (length s.rest)) s
        ≡ (if g.takes s.rest
        then (go_on (item (notes s (g.seen s.rest))) (λ v t. go_on (repeat g item (suc (length t.rest)) t) (λ w u. Ok (an_item v w, u))))
        else (Ok (no_item, notes s (g.seen s.rest)))) }
{}

/// Words and symbols, one of several words, runs, names, and white space with nested comments keep the laws of tokens.
pub fn tokens_are_lawful<G: HasLanguage>()
    ensures words { (value : Made G.language) (word : List ℕ) (test : ℕ → Bool)
        → LawfulToken (IsWord value word test) (λ x. IsFrontOf x word) (scan_word value word test) (seen_word word) no_fault }
    ensures choices { (entries : List (Entry (Made G.language))) → all_words_apart (spellings entries) ≡ true
        → LawfulToken (IsOneOf entries) (OpensOneOf entries) (scan_one_of entries) (seen_one_of entries) no_fault }
    ensures runs { (value : List ℕ → Made G.language) (test stop : ℕ → Bool)
        → LawfulToken (IsRun value test stop) (opens_run test) (scan_run value test stop) (seen_run test) no_fault }
    ensures names { (value : List ℕ → Made G.language) (first test stop : ℕ → Bool)
        → LawfulToken (IsNamed value first test stop) (opens_name first test) (scan_name value first test stop) (seen_name first test) no_fault }
    ensures gaps { (value : Made G.language) (allowed : ℕ → Bool) → (allowed 40 ≡ true) × (allowed 58 ≡ true)
        → LawfulToken (IsGap allowed value) (OpensGap allowed 0) (scan_gap allowed value) (seen_gap allowed 0) no_fault }
{}

/// The tokens of a language are lawful where each is.
pub fn each_token_is_lawful<G: HasLanguage>()
    ensures { ((t : G.language.Token) → LawfulToken (G.language.derives t) (G.language.opens t) (G.language.scan t) (G.language.seen t) (G.language.faults t))
        → LawfulTokens G.language }
{}

/// Tokens that others are made of, for contracts alone.
pub trait HasTokens {
    /// What they are worth.
    ghost Worth: { Type 0 };
    /// The token with this value stands at the front of the first text and leaves the second.
    ghost derives: { Worth → List ℕ → List ℕ → Type 0 };
    /// What opens it.
    ghost opens: { List ℕ → Type 0 };
    /// The token at the front of the text, and what it leaves.
    ghost scan: { List ℕ → Option (Worth × List ℕ) };
    /// What is left behind the longest front that opens it.
    ghost seen: { List ℕ → ℕ };
    /// The same of a token that may stand right behind it.
    ghost derives_behind: { Worth → List ℕ → List ℕ → Type 0 };

    ghost opens_behind: { List ℕ → Type 0 };

    ghost scan_behind: { List ℕ → Option (Worth × List ℕ) };

    ghost seen_behind: { List ℕ → ℕ };
}

/// A token with a test on its value, a token that may not stand, a token that need not stand, and a token with another
/// right behind it keep the laws of tokens where their parts do.
pub fn made_tokens_are_lawful<T: HasTokens>()
    ensures fitting { LawfulToken T.derives T.opens T.scan T.seen no_fault → (test : T.Worth → Bool) (faults : List ℕ → Option ℕ)
        → ((v : T.Worth) (x y : List ℕ) → T.derives v x y → test v ≡ true → faults x ≡ None) → faults [] ≡ None
        → LawfulToken (IsFitting T.derives test) T.opens (scan_fitting T.scan test) T.seen faults }
    ensures stop { LawfulToken T.derives T.opens T.scan T.seen no_fault → (faults : List ℕ → Option ℕ) → faults [] ≡ None
        → LawfulToken (Never {V = T.Worth}) T.opens scan_never T.seen faults }
    ensures firm { LawfulToken T.derives T.opens T.scan T.seen no_fault → (code : ℕ) (test : T.Worth → Bool) (v : T.Worth) (x y : List ℕ)
        → T.derives v x y → test v ≡ true → fault_of code test (T.scan x) ≡ None }
    ensures barred { (faults : List ℕ → Option ℕ) → faults [] ≡ None → LawfulToken (Never {V = T.Worth}) IsEmpty scan_never length faults }
    ensures optional { LawfulToken T.derives T.opens T.scan T.seen no_fault → (starts : List ℕ → Bool) (value : T.Worth) → Tells T.derives T.opens starts
        → LawfulToken (IsOptional T.derives starts value) T.opens (scan_optional T.scan starts value) T.seen no_fault }
    ensures joined { LawfulToken T.derives T.opens T.scan T.seen no_fault → LawfulToken T.derives_behind T.opens_behind T.scan_behind T.seen_behind no_fault
        → (value : T.Worth → T.Worth → T.Worth)
        → LawfulToken (AreJoined T.derives T.derives_behind value) (OpensJoined T.derives T.opens T.opens_behind)
        (scan_joined T.scan T.scan_behind value) (seen_joined T.scan T.seen T.seen_behind) no_fault }
{}

/// Two tokens as one, the second right behind the first, are avoided behind the first where the second is.
pub fn joined_tokens_are_avoided<T: HasTokens, K: HasTexts>()
    ensures never { (faults : List ℕ → Option ℕ) → LawfulToken T.derives T.opens T.scan T.seen faults → (value : T.Worth → T.Worth → T.Worth)
        → ((y z : List ℕ) (v : T.Worth) → K.texts y → T.derives_behind v y z → ⊥)
        → (x y z : List ℕ) (v w : T.Worth) → T.derives v x y → K.texts y → AreJoined T.derives T.derives_behind value w x z → ⊥ }
    ensures opening { (faults : List ℕ → Option ℕ) → LawfulToken T.derives T.opens T.scan T.seen faults → (value : T.Worth → T.Worth → T.Worth)
        → T.opens_behind []
        → ((y z w : List ℕ) (v : T.Worth) → K.beginnings y → T.derives_behind v (y ++ z) w → (y ≡ []) ⊎ T.opens_behind y)
        → (x y z r : List ℕ) (v w : T.Worth) → T.derives v x y → K.beginnings y → AreJoined T.derives T.derives_behind value w (x ++ z) r
        → OpensJoined T.derives T.opens T.opens_behind x }
{}

/// Tokens whose shapes are apart by computation are apart, and those whose shapes begin with a character, or with other
/// ones, do so; and words whose first characters pass a test, or fail it.
pub fn spellings_are_apart<G: HasLanguage>()
    ensures apart { (shape : G.language.Token → Shape) → ((t : G.language.Token) → HasShape G.language t (shape t))
        → (ts us : List G.language.Token) → all_apart shape ts us ≡ true → AllOf (λ u. AllOf (λ t. AreApart G.language t u) ts) us }
    ensures heads { (shape : G.language.Token → Shape) → ((t : G.language.Token) → HasShape G.language t (shape t))
        → (k : ℕ) (b : Bool) (ts : List G.language.Token) → list_all (λ t. shape_begins k b (shape t)) ts ≡ true → AllOf (HasHead G.language (is k) b) ts }
    ensures words { (shape : G.language.Token → Shape) → ((t : G.language.Token) → HasShape G.language t (shape t))
        → (test : ℕ → Bool) (b : Bool) (ts : List G.language.Token) → list_all (λ t. words_begin test b (shape t)) ts ≡ true → AllOf (HasHead G.language test b) ts }
    ensures heads_differ { (test : ℕ → Bool) (b c : Bool) (t u : G.language.Token) → (b ≡ c → ⊥)
        → HasHead G.language test b t → HasHead G.language test c u → AreApart G.language t u }
{}

/// Tokens that are one of several words stand, and are opened, as the words are.
pub fn words_are_spelled<G: HasLanguage>()
    ensures stands { (entries : List (Entry (Made G.language))) (v : Made G.language) (x y : List ℕ)
        → IsOneOf entries v x y → Spells (spellings entries) x }
    ensures opened { (entries : List (Entry (Made G.language))) (x : List ℕ) → OpensOneOf entries x → OpensWord (spellings entries) x }
    ensures opens { (entries : List (Entry (Made G.language))) (x : List ℕ) → OpensWord (spellings entries) x → OpensOneOf entries x }
{}

/// What is behind the front of a text is no longer than the text.
pub fn fronts_shorten()
    ensures common { (word x : List ℕ) → length (behind_common word x) ≤ length x }
    ensures run { (test : ℕ → Bool) (x : List ℕ) → length (behind_run test x) ≤ length x }
    ensures walk { (w : Walk) (n : ℕ) (x : List ℕ) → length (behind_walk w n x) ≤ length x }
{}

/// A run is a front of the text whose characters pass the test. A text whose first character fails a test does so where
/// its end is cut off.
pub fn runs_are_fronts()
    ensures whole { (test : ℕ → Bool) (x : List ℕ) → x ≡ run_of test x ++ behind_run test x }
    ensures passes { (test : ℕ → Bool) (x : List ℕ) → all_pass test (run_of test x) ≡ true }
    ensures cut { (test : ℕ → Bool) (y z : List ℕ) → head_passes test (y ++ z) ≡ false → head_passes test y ≡ false }
{}

/// What the steps of a hand-written reader do together.
pub fn steps_compose<G: HasLanguage>()
    ensures both { (call : G.language.Production → State → Reading (Made G.language)) (A B : Part G.language) (v w : Made G.language) (a b c : Standing)
        → Ran v a b (read_with G.language call A) → Ran w b c (read_with G.language call B) → Ran (pair v w) a c (read_with G.language call (A & B)) }
    ensures keyed { (call : G.language.Production → State → Reading (Made G.language)) (t : G.language.Token) (f : Made G.language → Part G.language) (v w : Made G.language) (a b c : Standing)
        → Ran v a b (read_token G.language t) → Ran w b c (read_with G.language call (f v)) → Ran (pair v w) a c (read_with G.language call (keyed t f)) }
    ensures made { (call : G.language.Production → State → Reading (Made G.language)) (f : ℕ → Made G.language → Made G.language) (A : Part G.language) (v : Made G.language) (a b : Standing)
        → Ran v a b (read_with G.language call A) → Ran (f (left_of a) v) a b (read_with G.language call (made f A)) }
    ensures nothing { (call : G.language.Production → State → Reading (Made G.language)) (a : Standing) → Ran nothing a a (read_with G.language call empty) }
{}

/// Values that are read, for contracts alone.
pub trait HasWorth {
    /// What is read.
    ghost Worth: { Type 0 };
}

/// A reader that has ended does nothing; and what a step read may be made into something else.
pub fn values_are_made<T: HasWorth, U: HasWorth>()
    ensures ended { (v : T.Worth) (here : Standing) (read : State → Reading T.Worth) → IsDone here → Ran v here here read }
    ensures mapped { (v : T.Worth) (f : T.Worth → U.Worth) (a b : Standing) (first : State → Reading T.Worth)
        → Ran v a b first → Ran (f v) a b (λ s. go_on (first s) (λ x t. Ok (f x, t))) }
    ensures makes { (v w : T.Worth) (a b c : Standing) (read : State → Reading T.Worth) → Ran v a b read → Makes w v b c → Ran w a c read }
    ensures looked { (v : T.Worth) (taken : Bool) (a b c : Standing) (g : Guard) (inner outer : State → Reading T.Worth)
        → Looked taken a b g → Ran v b c inner
        → ((s : State) → taken ≡ g.takes s.rest → outer s ≡ inner (notes s (g.seen s.rest))) → Ran v a c outer }
{}

/// What a hand-written reader does behind a look by a guard.
pub fn looks_decide<G: HasLanguage>()
    ensures left { (call : G.language.Production → State → Reading (Made G.language)) (g : Guard) (A B : Part G.language) (v : Made G.language) (taken : Bool) (a b c : Standing)
        → taken ≡ true → Looked taken a b g → Ran v b c (read_with G.language call A) → Ran v a c (read_with G.language call (choose g A B)) }
    ensures right { (call : G.language.Production → State → Reading (Made G.language)) (g : Guard) (A B : Part G.language) (v : Made G.language) (taken : Bool) (a b c : Standing)
        → taken ≡ false → Looked taken a b g → Ran v b c (read_with G.language call B) → Ran v a c (read_with G.language call (choose g A B)) }
    ensures full { (g : Guard) (item : State → Reading (Made G.language)) (a : Standing) → Ran no_item a a (repeat g item zero) }
    ensures stop { (g : Guard) (item : State → Reading (Made G.language)) (count : ℕ) (taken : Bool) (a b : Standing)
        → taken ≡ false → Looked taken a b g → Ran no_item a b (repeat g item (suc count)) }
    ensures item { (g : Guard) (item : State → Reading (Made G.language)) (count : ℕ) (v w : Made G.language) (taken : Bool) (a b c d : Standing)
        → taken ≡ true → Looked taken a b g → Ran v b c item → Ran w c d (repeat g item count) → Ran (an_item v w) a d (repeat g item (suc count)) }
{}

/// Runs that make a number as they go keep the laws of tokens.
pub fn walks_are_lawful<G: HasLanguage>()
    ensures { (value : List ℕ → Made G.language) (w : Walk) (start : ℕ)
        → LawfulToken (IsWalk value w start) (opens_walk w start) (scan_walk value w start) (seen_walk w start) no_fault }
{}

/// One of two tokens that never stand at one place, and a token with a value of its own, keep the laws of tokens where
/// their parts do.
pub fn chosen_tokens_are_lawful<T: HasTokens>()
    ensures either { LawfulToken T.derives T.opens T.scan T.seen no_fault → LawfulToken T.derives_behind T.opens_behind T.scan_behind T.seen_behind no_fault
        → ((v u : T.Worth) (x y z : List ℕ) → T.derives v x y → T.derives_behind u x z → ⊥)
        → LawfulToken (IsEither T.derives T.derives_behind) (OpensEither T.opens T.opens_behind) (scan_either T.scan T.scan_behind) (seen_either T.seen T.seen_behind) no_fault }
    ensures mapped { LawfulToken T.derives T.opens T.scan T.seen no_fault → (value : T.Worth → T.Worth)
        → LawfulToken (IsMapped T.derives value) T.opens (scan_mapped T.scan value) T.seen no_fault }
{}

/// Bytes that are UTF-8 up to a number of them, and no further, cannot be read at the place behind those.
pub fn unreadable_bytes_have_a_place()
    ensures { (bytes front : List ℕ) (n : ℕ) (place : Place) → IsValidUpTo bytes n → front ≡ chars (take n bytes)
        → place ≡ place_at front (length front) → IsUnreadableAt bytes place }
{}
