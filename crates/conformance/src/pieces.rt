// Text on standard output, in pieces.
use std::fmt;
use std::fmt::Write;

/// Standard output, written in pieces: each text and each value of a format, and each of the spaces that fill a column.
// A piece is a write of its own that is tried for itself, so what a failed write leaves out is that piece alone.
// Two spaces begin no text but that which fills a column.
// As in the other program, where no column is filled: each stands on its own.
#[derive(Drop)]
pub struct Pieces<'a, P>(pub &'a P);

impl<P: Print> Write for Pieces<'_, P> {
    fn write_str(&mut self, text: &str) -> fmt::Result {
        if text.starts_with("  ") {
            for _ in 0..text.len() {
                let _ = self.0.write_all(b" ");
            }
            return Ok(());
        }
        let _ = self.0.write_all(text.as_bytes());
        Ok(())
    }
}
