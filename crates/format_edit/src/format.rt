//! Formats as values.

/// An edit descriptor (ANSI X3.9-1978, 13.5). Each number but `least` is 1 to 9999 where a text was
/// read.
#[derive(Drop)]
pub enum Descriptor {
    /// `Iw.m`: an integer in so many positions, with at least m digits, 0 to 9999. `Iw` is `Iw.1`
    /// (13.5.9.1).
    Integer { width: u16, least: u16 },
    /// `Lw`: a logical value in so many positions (13.5.10).
    Logical(u16),
    /// Characters between apostrophes, a doubled one being one (13.5.1).
    Characters(Vec<u8>),
    /// `nX`: a move of n positions to the right (13.5.3.2).
    Skip(u16),
    /// The end of a record (13.5.4).
    Slash,
    /// Where editing ends when the list is used up (13.5.5).
    Colon,
}

/// A part of a format: an edit descriptor or a group, so many times (ANSI X3.9-1978, 13.1.1 and
/// 13.2.1).
#[derive(Drop)]
pub enum Part {
    Single(u16, Descriptor),
    Group(u16, Vec<Part>),
}

/// A format (ANSI X3.9-1978, 13.1): its parts in order.
#[derive(Drop)]
pub struct Format {
    pub parts: Vec<Part>,
}
