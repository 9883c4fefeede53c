// Numbers of nodes, as rows have them.

use gx_store::number::NodeId;
use std::alloc::{AllocError, Global};

pub fn node_of(word: &str) -> NodeId {
    NodeId {
        number: word.parse::<usize>().unwrap_or(0),
    }
}

/// Numbers with commas between them, or `none`.
pub fn nodes_of(alloc: Global, word: &str) -> Result<Vec<NodeId>, AllocError> {
    let mut nodes = Vec::new(alloc);
    if word != "none" {
        for part in word.split(',') {
            nodes.push(node_of(part))?;
        }
    }
    Ok(nodes)
}

/// Puts numbers down, with commas between them, or `none`.
pub fn push_numbers(alloc: Global, nodes: &[NodeId], shown: &mut String) -> Result<(), AllocError> {
    if nodes.is_empty() {
        shown.push_str("none")?;
    }
    for (index, node) in nodes.iter().enumerate() {
        if index > 0 {
            shown.push(',')?;
        }
        let number = format!(in alloc; "{}", node.number)?;
        shown.push_str(number.as_str())?;
    }
    Ok(())
}

pub fn shown_numbers(alloc: Global, nodes: &[NodeId]) -> Result<String, AllocError> {
    let mut shown = String::new(alloc);
    push_numbers(alloc, nodes, &mut shown)?;
    Ok(shown)
}
