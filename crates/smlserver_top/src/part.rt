// What a script writes, piece by piece.
use sml_syntax::Text;

/// A text, or the decimal text of a product.
#[derive(Drop)]
pub(crate) enum Part {
    Plain(Text),
    Product(u32, u32),
}
