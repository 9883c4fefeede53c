// The document of the workload: an auction with ten sellers and so many items, of which each has up to three bids.

ghost use Rattle.std.specs.Prelude.{◌≡◌, ◌≤◌, ◌++◌, IfOk, OnOk, string_bytes};
ghost use Rattle.gx_demo.specs.declared.workload.TheConstants.{WORKLOAD_ITEMS};
ghost use Rattle.gx_demo.specs.Workload.{auction, sellers, items, item_element, bids};

use std::alloc::{AllocError, Global};

const SELLERS: u32 = 10;

// The document.
pub(crate) fn auction(alloc: Global, count: u32) -> Result<String, AllocError>
    requires { count ≤ WORKLOAD_ITEMS }
    ensures { IfOk result (λ text. string_bytes text ≡ auction count) }
{
    let mut text = String::from_str(alloc, "<site>")?;
    put_sellers(alloc, &mut text)?;
    put_items(alloc, &mut text, count)?;
    text.push_str("</site>")?;
    Ok(text)
}

fn put_sellers(alloc: Global, text: &mut String) -> Result<(), AllocError>
    ensures { OnOk result (string_bytes text.new ≡ string_bytes text.old ++ sellers) }
{
    for seller in 0..SELLERS {
        text.push_str(format!(in alloc; "<seller id=\"{seller}\"/>")?.as_str())?;
    }
    Ok(())
}

fn put_items(alloc: Global, text: &mut String, count: u32) -> Result<(), AllocError>
    requires { count ≤ WORKLOAD_ITEMS }
    ensures { OnOk result (string_bytes text.new ≡ string_bytes text.old ++ items count) }
{
    for before in 0..count {
        put_item(alloc, text, 1 + before)?;
    }
    Ok(())
}

fn put_item(alloc: Global, text: &mut String, item: u32) -> Result<(), AllocError>
    requires { item ≤ WORKLOAD_ITEMS }
    ensures { OnOk result (string_bytes text.new ≡ string_bytes text.old ++ item_element item) }
{
    let seller = item % SELLERS;
    text.push_str(format!(in alloc; "<item id=\"{item}\" seller=\"{seller}\">")?.as_str())?;
    put_bids(alloc, text, item, item % 4)?;
    text.push_str("</item>")
}

fn put_bids(alloc: Global, text: &mut String, item: u32, count: u32) -> Result<(), AllocError>
    requires item { item ≤ WORKLOAD_ITEMS }
    requires count { count ≤ 3 }
    ensures { OnOk result (string_bytes text.new ≡ string_bytes text.old ++ bids item count) }
{
    for before in 0..count {
        let amount = 10 * item + (1 + before);
        text.push_str(format!(in alloc; "<bid amount=\"{amount}\"/>")?.as_str())?;
    }
    Ok(())
}
