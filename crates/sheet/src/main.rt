// Reads an installer's sheet of property maps, keeps the good ones in a store, and prints what became of each.
#![tactic(auto)]

ghost use Rattle.std.specs.Prelude.{◌≡◌, false, length, is_ok, nat_le};

mod keeping;
mod lines;
mod options;
mod text;

use lines::run;
use log_store::with_log;
use options::{Kind, parse};
use std::process::ExitCode;
use std::{env, fs, io};
use store::{Store, Work};
use table_store::TableStore;
use text::Told;

const USAGE: &str = "Usage: sheet [--store table | --store log BYTES] [FILE]

Reads an installer's sheet: one property map a line, in hexadecimal. Blank lines and
lines that begin with # are skipped. Every good map is stored under the next handle,
in its one written form; of every other the line says what is wrong with it. At the
end come the topics that the store holds, and a summary.

  --store table      keep the topics in a table of 64 places (the default)
  --store log BYTES  keep them in a log of so many bytes, at least 1166
  --help             print this text
  FILE               the sheet; without it, standard input";

// The whole sheet, from the file or from standard input.
fn whole_text(rt: &HostRuntime, path: Option<&str>) -> anyhow::Result<String> {
    match path {
        Some(path) => Ok(fs::read_to_string(rt, path)?),
        None => Ok(io::read_to_string(rt.alloc(), rt.stdin())?),
    }
}

// A sheet to be read into a store. A `Work`, since `with_log` alone says that refused memory stays as it was.
#[derive(Drop)]
struct Sheet<'a> {
    rt: &'a HostRuntime,
    text: &'a str,
}

impl Work for Sheet<'_> {
    type Output = anyhow::Result<()>;

    ghost done = { λ _ _ _ _. Unit {0} };

    fn run<S: Store>(self, store: &mut S) -> anyhow::Result<()> {
        run(self.rt, self.text, store)
    }
}

// The sheet, read into a log store in these bytes; too few are refused, and stay as they were.
fn in_log(rt: &HostRuntime, text: &str, bytes: &mut [u8]) -> anyhow::Result<()>
    ensures refused { nat_le 1166 (length bytes.old) ≡ false → is_ok result ≡ false }
    ensures same { nat_le 1166 (length bytes.old) ≡ false → bytes.new ≡ bytes.old }
{
    with_log(bytes, Sheet { rt, text }).map_err(Told)?
}

fn process(rt: &HostRuntime) -> anyhow::Result<()> {
    let words: Vec<String> = env::args(rt)?.skip(1).collect(rt.alloc())?;
    let options = parse(words.as_slice())?;
    if options.help {
        rt.println(USAGE)?;
        return Ok(());
    }
    let text = whole_text(rt, options.path)?;
    match options.store {
        Kind::Table => {
            let mut store = TableStore::new();
            run(rt, text.as_str(), &mut store)
        }
        Kind::Log(len) => {
            let mut bytes = vec![in rt.alloc(); 0; len]?;
            in_log(rt, text.as_str(), bytes.as_mut_slice())
        }
    }
}

fn main(rt: HostRuntime) -> anyhow::Result<ExitCode> {
    match process(&rt) {
        Ok(()) => Ok(ExitCode::SUCCESS),
        Err(e) => {
            eprintln!(rt; "sheet: {e}")?;
            Ok(ExitCode::FAILURE)
        }
    }
}
