// Rows, one for each node.

use gx_base::text::Text;

// What a node is. Labels are named by their numbers.
pub(crate) enum Form {
    Document,
    Element { label: u32, attributes: u32 },
    Attribute { label: u32, value: Text },
    Text(Text),
}

impl Drop for Form {
    fn drop(self) {
        match self {
            Form::Document => {}
            Form::Element {
                label: _label,
                attributes: _attributes,
            } => {}
            Form::Attribute {
                label: _label,
                value: _value,
            } => {}
            Form::Text(_text) => {}
        }
    }
}

// A node: what it is, how many rows before it its parent stands (0 at a root), and how many rows behind it stand below it.
pub(crate) struct Row {
    pub form: Form,
    pub up: u32,
    pub below: u32,
}

impl Drop for Row {
    fn drop(self) {
        let Row {
            form: _form,
            up: _up,
            below: _below,
        } = self;
    }
}
