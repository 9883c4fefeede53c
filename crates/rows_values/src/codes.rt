// Rows of codes.

use gx_base::code::Code;
use std::alloc::{AllocError, Global};

/// The spelling of the code that has this name in the program.
pub fn code_row(alloc: Global, word: &str) -> Result<String, AllocError> {
    match code(word) {
        Some(code) => String::from_str(alloc, code.text()),
        None => String::from_str(alloc, "no code"),
    }
}

fn code(word: &str) -> Option<Code> {
    let found = match word {
        "XPST0003" => Code::XPST0003,
        "XPST0005" => Code::XPST0005,
        "XPST0008" => Code::XPST0008,
        "XPST0017" => Code::XPST0017,
        "XPST0051" => Code::XPST0051,
        "XPST0080" => Code::XPST0080,
        "XPST0081" => Code::XPST0081,
        "XPTY0004" => Code::XPTY0004,
        "XPTY0018" => Code::XPTY0018,
        "XPTY0019" => Code::XPTY0019,
        "XPTY0020" => Code::XPTY0020,
        "XPDY0002" => Code::XPDY0002,
        "XQST0022" => Code::XQST0022,
        "XQST0033" => Code::XQST0033,
        "XQST0034" => Code::XQST0034,
        "XQST0039" => Code::XQST0039,
        "XQST0040" => Code::XQST0040,
        "XQST0045" => Code::XQST0045,
        "XQST0049" => Code::XQST0049,
        "XQST0054" => Code::XQST0054,
        "XQST0057" => Code::XQST0057,
        "XQST0058" => Code::XQST0058,
        "XQST0059" => Code::XQST0059,
        "XQST0070" => Code::XQST0070,
        "XQST0071" => Code::XQST0071,
        "XQST0085" => Code::XQST0085,
        "XQST0089" => Code::XQST0089,
        "XQST0090" => Code::XQST0090,
        "XQTY0024" => Code::XQTY0024,
        "XQDY0044" => Code::XQDY0044,
        "FOTY0012" => Code::FOTY0012,
        "FORG0006" => Code::FORG0006,
        "SENR0001" => Code::SENR0001,
        "GLXS0001" => Code::GLXS0001,
        "GLXS0002" => Code::GLXS0002,
        "GLXS0003" => Code::GLXS0003,
        "GLXS0004" => Code::GLXS0004,
        "FOAR0001" => Code::FOAR0001,
        "FOAR0002" => Code::FOAR0002,
        "FORG0001" => Code::FORG0001,
        "FORG0003" => Code::FORG0003,
        "FORG0004" => Code::FORG0004,
        "FORG0005" => Code::FORG0005,
        "FOCA0001" => Code::FOCA0001,
        "FOCA0003" => Code::FOCA0003,
        "FOCA0006" => Code::FOCA0006,
        "FOCH0001" => Code::FOCH0001,
        "FOCH0003" => Code::FOCH0003,
        "FOER0000" => Code::FOER0000,
        "XPDY0050" => Code::XPDY0050,
        "XQDY0025" => Code::XQDY0025,
        "GLXD0001" => Code::GLXD0001,
        "GLXD0002" => Code::GLXD0002,
        "GLXD0003" => Code::GLXD0003,
        _ => return None,
    };
    Some(found)
}
