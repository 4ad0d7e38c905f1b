// The buffers that a scan writes to, as one value; crate::serve has its methods.

/// The state, the report and the journal of a scan; `events` events have been written.
// That each buffer has the bytes of the blocks is asked, not held: checks 20, 40 and 41 say it of a table, which is no part of this.
#[derive(Drop)]
pub struct Lent<'a> {
    pub state: &'a mut [u8],
    pub report: &'a mut [u8],
    pub journal: &'a mut [u8],
    pub events: usize,
}
