// The forms of the values of attributes.

ghost use Rattle.std.specs.Prelude.{◌≡◌, IfOk};
ghost use Rattle.gx_schema_syntax.specs.Forms.{has_form, is_one_of_words};
ghost use Rattle.gx_qnames.specs.Words.{has_spelling};

use crate::attributes::Form;
use gx_base::text::Text;
use gx_qnames::characters::{characters, is_digits, is_local_name, is_qname};
use gx_qnames::words::has_spelling;
use std::alloc::{AllocError, Global};

/// Whether a value has the form.
pub fn has_form(alloc: Global, form: Form, value: &Text) -> Result<bool, AllocError>
    ensures { IfOk result (λ holds. holds ≡ has_form form value.now) }
{
    match form {
        Form::Name => Ok(is_local_name(&characters(alloc, value)?)),
        Form::Reference | Form::TypeReference => Ok(is_qname(&characters(alloc, value)?)),
        Form::Digits => Ok(is_digits(&characters(alloc, value)?)),
        Form::DigitsOrUnbounded => {
            Ok(has_spelling("unbounded", value) || is_digits(&characters(alloc, value)?))
        }
        _ => Ok(is_one_of_words(form, value)),
    }
}

// Whether a value is one of the words of the form.
fn is_one_of_words(form: Form, value: &Text) -> bool
    ensures { result ≡ is_one_of_words form value.now }
{
    match form {
        Form::Boolean => {
            has_spelling("true", value)
                || has_spelling("false", value)
                || has_spelling("1", value)
                || has_spelling("0", value)
        }
        Form::False => has_spelling("false", value),
        Form::Usage => {
            has_spelling("optional", value)
                || has_spelling("required", value)
                || has_spelling("prohibited", value)
        }
        Form::Qualification => has_spelling("qualified", value)
            || has_spelling("unqualified", value),
        _ => true,
    }
}
