// What is told on standard error.
ghost use Rattle.std.specs.Prelude.{◌≡◌, ◌≤◌, length};
ghost use Rattle.import.specs.declared.Stop;

use crate::Stop;
use streams::Streams;
use table::Refused;
use text::Buffer;

pub fn tell_use(streams: Streams) {
    streams::tell(
        streams.error,
        b"import: takes one word on its command line, the name of a file with a table of orders\n",
    );
}

pub fn tell_changed(streams: Streams) {
    streams::tell(
        streams.error,
        b"import: the file was not read alike twice; what was written is not its table\n",
    );
}

// Tells a refusal, with the first line of the table where it stands in that line, and answers it.
pub fn refused(streams: Streams, file: &[u8], first: &[u8], why: Refused) -> Stop
    requires { length file.now ≤ 4096 }
    ensures { result ≡ Rattle.import.specs.declared.Stop.Stop.Refused why }
{
    let mut out = Buffer::<8192>::new();
    import_lines::put_refused(&mut out, file, first, why);
    streams::tell(streams.error, out.bytes());
    Stop::Refused(why)
}
