// What the command line asks for.
ghost use Rattle.std.specs.Prelude.{◌<◌, length, IfOk};

use anyhow::{Context, Result, bail};

// The kind of store.
#[derive(Clone, Copy)]
pub enum Kind {
    Table,
    Log(usize),
}

#[derive(Clone, Copy)]
pub struct Options<'a> {
    pub store: Kind,
    pub path: Option<&'a str>,
    // a flag: the words behind --help are judged all the same
    pub help: bool,
}

// The store that the words behind --store name, and the words behind it.
fn store(words: &[String]) -> Result<(Kind, &[String])>
    ensures { IfOk result (λ r. length r.1.now < length words.now) }
{
    let (name, rest) = words
        .split_first()
        .context("--store: table or log BYTES is missing")?;
    match name.as_str() {
        "table" => Ok((Kind::Table, rest)),
        "log" => {
            let (bytes, rest) = rest
                .split_first()
                .context("--store log: the number of bytes is missing")?;
            let len = bytes
                .parse::<usize>()
                .context("--store log: the number of bytes is no number")?;
            Ok((Kind::Log(len), rest))
        }
        _ => bail!("--store: neither table nor log BYTES"),
    }
}

// The options that the words give.
pub(crate) fn parse(words: &[String]) -> Result<Options<'_>> {
    let mut options = Options {
        store: Kind::Table,
        path: None,
        help: false,
    };
    let mut words = words;
    while let Some((word, rest)) = words.split_first() {
        words = rest;
        match word.as_str() {
            "--help" => options.help = true,
            "--store" => (options.store, words) = store(words)?,
            text => {
                if text.starts_with("--") {
                    bail!("unknown option; sheet --help tells the usage");
                }
                options.path = Some(text);
            }
        }
    }
    Ok(options)
}
