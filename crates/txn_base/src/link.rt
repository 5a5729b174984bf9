//! An object that is both a source and a sink.
ghost use Rattle.std.specs.Prelude.{◌≡◌};

use crate::sink::Sink;
use crate::source::Source;

/// A connection: what is taken from it and what is put into it are beside each other.
pub trait Link: Source + Sink {
    /// Beside what is left stand what was put and the count of failed puts.
    ghost beside_source: { (x : Self) → Self.Source.rest x ≡ (Self.held x, Self.Sink.faults x) };

    /// Beside what was put stand what is left and the count of failed takes.
    ghost beside_sink: { (x : Self) → Self.Sink.rest x ≡ (Self.left x, Self.Source.faults x) };
}
