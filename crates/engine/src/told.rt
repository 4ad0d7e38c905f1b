// What a scan is told.
ghost use Rattle.std.specs.Prelude.{◌≡◌};

use std::marker::Model;

/// What a scan is told beside the table: its frame.
#[derive(Drop)]
pub struct Told<'a> {
    frame: &'a [u8],
}

impl<'a> Model for Told<'a> {
    ghost use Rattle.engine.specs.Told.{Told};

    ghost Value = { Told };

    ghost view = { λ t. record { frame = t.frame.now } };
}

impl<'a> Told<'a> {
    /// A scan is told this frame.
    pub fn new(frame: &'a [u8]) -> Self
        ensures { result ≡ record { frame = frame.now } }
    {
        Told { frame }
    }

    /// The frame.
    pub fn frame(&self) -> &'a [u8]
        ensures { result.now ≡ self.now.frame }
    {
        self.frame
    }
}
