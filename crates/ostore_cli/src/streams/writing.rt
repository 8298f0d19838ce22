ghost use Rattle.std.specs.Prelude.{◌≡◌, OnOk, OnErr};
ghost use Rattle.ostore_base.specs.Faults.{HasCause};
ghost use Rattle.ostore_base.specs.Streams.{appended};
ghost use Rattle.ostore_cli.specs.Streams.{AppendsFront};

use ostore_base::{Failed, Sink};

/// Writes all of a piece. After `Failed` a front of it was written.
pub(crate) fn write_whole<K: Sink>(sink: &mut K, bytes: &[u8]) -> Result<(), Failed>
    ensures cause { HasCause (K.faults sink.old) (K.faults sink.new) result }
    ensures ok { OnOk result (K.written sink.new ≡ appended (K.written sink.old) bytes.now) }
    ensures err { OnErr result (AppendsFront (K.written sink.old) (K.written sink.new) bytes.now) }
{
    let mut at = 0;
    while at < bytes.len() {
        at += sink.write(&bytes[at..])?;
    }
    Ok(())
}
