// The number of items that is asked for, and the files of the workload.

ghost use Rattle.std.specs.Prelude.{◌≡◌, ◌≤◌, IfOk, IfSome};
ghost use Rattle.gx_demo.specs.Workload.{items_asked, workload_files};

use crate::auction::auction;
use gx_io::MemoryLibrary;
use std::alloc::{AllocError, Global};

/// The greatest number of items.
pub const WORKLOAD_ITEMS: u32 = 20_000;

/// The name of the file that holds the query.
pub const QUERY_FILE: &str = "demo.xq";

/// The word that binds the external variable of the query to the document.
pub const BINDING: &str = "d=site.xml";

const QUERY: &str =
    "import schema \"\" at \"site.xsd\"; declare variable $d as document-node(schema-element(site)) external; concat(\"items=\", string(count($d/site/item)), \" bids=\", string(count($d//bid)), \" total=\", string(sum($d//bid/@amount)), \" joined=\", string(count(for $i in $d/site/item for $s in $d/site/seller where $i/@seller = $s/@id return $s)))";

const SCHEMA: &str =
    "<xs:schema xmlns:xs=\"http://www.w3.org/2001/XMLSchema\"><xs:element name=\"site\"><xs:complexType><xs:sequence><xs:element name=\"seller\" minOccurs=\"0\" maxOccurs=\"unbounded\"><xs:complexType><xs:attribute name=\"id\" type=\"xs:integer\" use=\"required\"/></xs:complexType></xs:element><xs:element name=\"item\" minOccurs=\"0\" maxOccurs=\"unbounded\"><xs:complexType><xs:sequence><xs:element name=\"bid\" minOccurs=\"0\" maxOccurs=\"unbounded\"><xs:complexType><xs:attribute name=\"amount\" type=\"xs:integer\" use=\"required\"/></xs:complexType></xs:element></xs:sequence><xs:attribute name=\"id\" type=\"xs:integer\" use=\"required\"/><xs:attribute name=\"seller\" type=\"xs:integer\" use=\"required\"/></xs:complexType></xs:element></xs:sequence></xs:complexType></xs:element></xs:schema>";

/// The number of items that a word asks for: digits without a leading zero, for at most the greatest number.
pub fn items_asked(word: &str) -> Option<u32>
    ensures number { result ≡ items_asked word.now }
    ensures within { IfSome result (λ items. items ≤ WORKLOAD_ITEMS) }
{
    match word.as_bytes() {
        [b'1'..=b'9', ..] => match word.parse::<u32>() {
            Ok(items) if items <= WORKLOAD_ITEMS => Some(items),
            _ => None,
        },
        _ => None,
    }
}

/// The files of the workload over so many items.
pub fn workload(alloc: Global, items: u32) -> Result<MemoryLibrary, AllocError>
    requires { items ≤ WORKLOAD_ITEMS }
    ensures { IfOk result (λ library. library.files ≡ workload_files items) }
{
    let document = auction(alloc, items)?;
    let mut library = MemoryLibrary::new(alloc);
    library.add(QUERY_FILE, QUERY.as_bytes())?;
    library.add("site.xsd", SCHEMA.as_bytes())?;
    library.add("site.xml", document.as_bytes())?;
    Ok(library)
}
