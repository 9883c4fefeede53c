// White space at the ends of texts.

ghost use Rattle.std.specs.Prelude.{◌≡◌, reverse};
ghost use Rattle.gx_validate.specs.Annotation.{without_space_before, without_space_around};

use gx_base::characters::is_white_space;

fn without_space_before(characters: &[char]) -> &[char]
    ensures { result.now ≡ without_space_before characters.now }
{
    let mut rest = characters;
    while let Some((first, others)) = rest.split_first() {
        if !is_white_space(*first) {
            return rest;
        }
        rest = others;
    }
    rest
}

fn without_space_behind(characters: &[char]) -> &[char]
    ensures { result.now ≡ reverse (without_space_before (reverse characters.now)) }
{
    let mut rest = characters;
    while let Some((last, others)) = rest.split_last() {
        if !is_white_space(*last) {
            return rest;
        }
        rest = others;
    }
    rest
}

/// What stands between the white space at both ends.
pub fn without_space_around(characters: &[char]) -> &[char]
    ensures { result.now ≡ without_space_around characters.now }
{
    without_space_behind(without_space_before(characters))
}
