//! Text as the desk reads and writes it. A word is read as the number that its digits write
//! (`read_decimal`, `decimal_number`), and `Words` gives the words of a line. A `Reply` is seen as
//! its bytes and grows by exactly what is added. It has memory for 1,024 bytes from the start, and
//! wants some only for what doesn't fit into these (`full`); where memory is wanting it stays as it
//! was, but `field` may have appended its text.
#![tactic(auto)]

mod decimal;
mod reply;
mod words;

pub use decimal::{decimal_number, read_decimal};
pub use reply::Reply;
pub use words::Words;
