// Laws of the definitions that the contracts cite.
ghost use Rattle.std.specs.Prelude.{◌≡◌, ℕ, List, Ok};
ghost use Rattle.gx_base.specs.declared.type_name.Builtin.{Builtin as BuiltinType};
ghost use Rattle.gx_facets.specs.declared.AtomValue.{AtomValue};
ghost use Rattle.gx_facets.specs.Value.{value_of, printed_value};
ghost use Rattle.gx_facets.specs.ValueSpace.{FitsType, IsIntegerType, ReadsByIntegerForm, ReadsByDecimalForm};

use gx_num::laws::{forms_are_read, printed_numbers_read_back};

/// The printed text of a value of a type is read at that type as the value again.
pub fn printed_values_read_back()
    ensures { (kind : BuiltinType) (value : AtomValue) → FitsType kind value → value_of kind (printed_value value) ≡ Ok value }
{
    printed_numbers_read_back();
    forms_are_read();
}

/// What a text is read as at a type is a value of that type.
pub fn read_values_fit()
    ensures { (kind : BuiltinType) (text : List ℕ) (value : AtomValue) → value_of kind text ≡ Ok value → FitsType kind value }
{
    forms_are_read();
}

/// A text without its outer and doubled white space is read at a number's type by its lexical form: as the number of that
/// form, or with the fault that the form has (XML Schema Part 2, sections 3.2.3.1 and 3.3.13.1).
pub fn numbers_are_read_by_their_forms()
    ensures integer { (kind : BuiltinType) (text : List ℕ) → IsIntegerType kind → ReadsByIntegerForm kind text }
    ensures decimal { (text : List ℕ) → ReadsByDecimalForm text }
{
    forms_are_read();
}
