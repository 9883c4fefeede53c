// Laws of the definitions that the contracts cite: each holds of all numbers and texts, and its function does nothing.
ghost use Rattle.std.specs.Prelude.{◌≡◌, ◌<◌, ◌+◌, ◌-◌, ◌*◌, ◌^◌, ◌∷◌, ℕ, List, length, ℤ, pos, ◌+ℤ◌, ◌-ℤ◌, unsigned_abs, int_div, int_rem, Ok};
ghost use Rattle.std.specs.Str.Parse.{digits_value};
ghost use Rattle.gx_num.specs.declared.Number.{Number as AnyNumber};
ghost use Rattle.gx_num.specs.declared.Number.TheVariants.{Int as AnInteger, Dec as ADecimal};
ghost use Rattle.gx_num.specs.Number.{units_of, FitsInteger, FitsDecimal};
ghost use Rattle.gx_num.specs.Arithmetic.{operands_of, exact_sum, exact_difference, whole_below};
ghost use Rattle.gx_num.specs.Lexical.{NumeralSign, IntegerForm, DecimalForm, ReadsInteger, ReadsDecimal, integer_of, decimal_of};
ghost use Rattle.gx_num.specs.Printed.{printed};
ghost use Rattle.gx_num.specs.Laws.{IsTruncatedDivision, IsGreatestMultipleBelow};

/// Quotient and remainder are those of division truncated toward zero.
pub fn division_truncates()
    ensures { (a d : ℤ) → 0 < unsigned_abs d → IsTruncatedDivision a d (int_div a d) (int_rem a d) }
{}

/// Across integers and decimals the value of a sum is the sum of the values, and of a difference the difference.
pub fn sums_add_values()
    ensures sum { (a b : AnyNumber) → units_of (exact_sum (operands_of a b)) ≡ units_of a +ℤ units_of b }
    ensures difference { (a b : AnyNumber) → units_of (exact_difference (operands_of a b)) ≡ units_of a -ℤ units_of b }
{}

/// Rounding goes to the greatest multiple of one that is not above.
pub fn rounding_goes_down()
    ensures { (a : ℤ) → IsGreatestMultipleBelow (pos 1000000) a (whole_below a) }
{}

/// A digit counts ten to the power of the digits behind it.
pub fn digits_count_by_place()
    ensures { (d : ℕ) (ds : List ℕ) → d < 10 → digits_value 10 ((48 + d) ∷ ds) ≡ d * 10 ^ length ds + digits_value 10 ds }
{}

/// A text has at most one reading.
pub fn readings_are_unique()
    ensures integer { (text : List ℕ) (y z : ℤ) → IntegerForm text y → IntegerForm text z → y ≡ z }
    ensures decimal { (text : List ℕ) (s t : NumeralSign) (v w f g : List ℕ) → DecimalForm text s v f → DecimalForm text t w g → (v ≡ w) × (f ≡ g) }
{}

/// The computed readings answer as the lexical forms say: the number of the form that a text has, or the fault.
pub fn forms_are_read()
    ensures integer { (text : List ℕ) → ReadsInteger text (integer_of text) }
    ensures decimal { (text : List ℕ) → ReadsDecimal text (decimal_of text) }
{}

/// What is printed is read back as the same number.
pub fn printed_numbers_read_back()
    ensures integer { (i : ℤ) → FitsInteger i → integer_of (printed (AnInteger i)) ≡ Ok i }
    ensures decimal { (u : ℤ) → FitsDecimal u → decimal_of (printed (ADecimal u)) ≡ Ok u }
{}
