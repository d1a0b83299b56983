//! Where records go.

ghost use Rattle.std.specs.Prelude.{◌≡◌, false, [], List, ℕ, Bool, IfOk, OnOk, OnErr};
ghost use Rattle.meaning.specs.Promise.{Told, Took, TookAndRefused, IsBroken};
ghost use Rattle.record_sinks.specs.Puts.{TakesFront};

use std::io::Write;

/// A sink refused a write.
#[derive(Clone, Copy, Debug, PartialEq, Eq)]
pub struct Refused;

/// Where records go: bytes in order, until a write is refused.
pub trait Sink {
    /// The bytes that it has, where they are known, and whether it has refused.
    ghost told: { Self → Told };

    /// Takes bytes from the front of a piece, and answers how many: one at least, unless the piece
    /// is empty. An `Err` takes none, and the sink has refused from then on. Called only on a sink
    /// that hasn't refused.
    fn put(&mut self, piece: &[u8]) -> Result<usize, Refused>
        requires { (told self.old).refused ≡ false }
        ensures ok { IfOk result (λ n. TakesFront piece.now n (told self.old) (told self.new)) }
        ensures err { OnErr result (TookAndRefused (told self.old) (told self.new) []) };

    /// Whether it has refused.
    fn refused(&self) -> bool
        ensures { result ≡ (told self.now).refused };
}

/// A sink over any writer. A write that fails, or that takes nothing of a piece, is refused.
pub struct Out<W: Write> {
    writer: W,
    refused: bool,
}

impl<W: Write> Out<W> {
    /// A sink that hasn't refused.
    pub fn new(writer: W) -> Self
        ensures writer { result.writer ≡ writer }
        ensures refused { result.refused ≡ false }
    {
        Out {
            writer,
            refused: false,
        }
    }

    /// The writer.
    pub fn into_inner(self) -> W
        ensures { result ≡ self.writer }
    {
        let Out { writer, refused: _ } = self;
        writer
    }
}

impl<W: Write> Sink for Out<W> {
    ghost told = { λ s. record { bytes = W.contents s.writer; refused = s.refused } };

    fn put(&mut self, piece: &[u8]) -> Result<usize, Refused> {
        match self.writer.write(piece) {
            Ok(count) => {
                if count == 0 && !piece.is_empty() {
                    self.refused = true;
                    Err(Refused)
                } else {
                    Ok(count)
                }
            }
            Err(_) => {
                self.refused = true;
                Err(Refused)
            }
        }
    }

    fn refused(&self) -> bool {
        self.refused
    }
}

/// Puts the whole of a piece, or what comes before the refusal.
pub fn put_all<S: Sink>(sink: &mut S, piece: &[u8]) -> Result<(), Refused>
    requires { (S.told sink.old).refused ≡ false }
    ensures ok { OnOk result (Took (S.told sink.old) (S.told sink.new) piece.now) }
    ensures err { OnErr result (IsBroken piece.now (S.told sink.old) (S.told sink.new)) }
{
    let mut done = 0;
    while done < piece.len() {
        done += sink.put(&piece[done..])?;
    }
    Ok(())
}
