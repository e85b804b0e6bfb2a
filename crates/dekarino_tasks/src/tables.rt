//! The table of a configuration's ports.
ghost use Rattle.std.specs.Prelude.{IfOk, IfSome};
ghost use Rattle.dekarino_tasks.specs.Contents.{IsTableOf};

use crate::json_table::table_objects;
use apex_files::Opener;
use apex_module::Config;
use dekarino_command_line::Form;
use dekarino_search::{Outcome, Unfinished, read_config};
use dekarino_texts::{TableRow, port_table, table_text};
use std::alloc::Global;

/// The table of the ports of the configuration in a file.
pub(crate) fn table<'a, O: Opener>(
    alloc: Global,
    opener: &O,
    path: &'a str,
    form: Form,
) -> Result<Outcome, Unfinished<'a>> {
    let (config, rows) = read_table(alloc, opener, path, form)?;
    let text = match form {
        Form::Text => table_text(alloc, &config, rows.as_slice())?,
        Form::Json => table_objects(alloc, &config, rows.as_slice())?,
    };
    Ok(Outcome::Done(text.into_bytes()))
}

/// The configuration in a file, and the rows of its table.
fn read_table<'a, O: Opener>(
    alloc: Global,
    opener: &O,
    path: &'a str,
    form: Form,
) -> Result<(Config, Vec<TableRow>), Unfinished<'a>>
    ensures { IfOk result
        (λ read. IfSome (O.bytes_at opener.now path.now) (IsTableOf read.1.items)) }
{
    let config = read_config(alloc, opener, path, form)?;
    let rows = port_table(alloc, &config)?;
    Ok((config, rows))
}
