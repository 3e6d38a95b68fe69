//! Cases of the table of handles, by its own calls.

use row_cases::Case;
use std::alloc::{AllocError, Global};
use std::fmt::Write;
use wasi_table::{Table, TableError};
use world_text::fields::Fields;

/// Adds the children of a handle: their number, whether there are none, each, and whether it is said
/// to be one.
fn push_children(text: &mut String, table: &Table<u32>, handle: u32) -> Result<(), AllocError> {
    let children = match table.children(handle) {
        Ok(children) => children,
        Err(error) => return write!(text, "{error:?}"),
    };
    let (len, none) = (children.len(), children.is_empty());
    write!(text, "{len} {none}")?;
    for child in children.iter() {
        let is_one = children.contains(*child);
        write!(text, " {child} {is_one}")?;
    }
    Ok(())
}

/// Makes values with the numbers of their handles until the table is full or another handle comes.
fn fill(table: &mut Table<u32>) -> Result<u32, TableError> {
    for _ in 0..u32::MAX {
        let next = table.next();
        if table.is_full() || table.push(next)? != next {
            return Ok(next);
        }
    }
    Err(TableError::Full)
}

/// Makes the call of a line: the handle or the value that it gives.
fn call(table: &mut Table<u32>, word: &str, one: u32, other: u32) -> Result<u32, TableError> {
    match word {
        "push" => table.push(one),
        "push-child" => table.push_child(one, other),
        "get" => {
            let value = table.get(one)?;
            Ok(*value)
        }
        "rewrite" => {
            let place = table.get_mut(one)?;
            *place = other;
            Ok(other)
        }
        "fill" => fill(table),
        _ => table.delete(one),
    }
}

/// Adds what comes of a line.
fn push_line(text: &mut String, table: &mut Table<u32>, line: &str) -> Result<(), AllocError> {
    let mut fields = Fields::of(line.as_bytes());
    let word = fields.word().unwrap_or("");
    let (one, other) = (fields.u32().unwrap_or(0), fields.u32().unwrap_or(0));
    match word {
        "counts" => {
            let (next, full, live) = (table.next(), table.is_full(), table.slots().len());
            write!(text, "next {next} full {full} live {live}")
        }
        "children" => push_children(text, table, one),
        _ => {
            let came = call(table, word, one, other);
            write!(text, "{came:?}")
        }
    }
}

/// `table`: what a table gives to each line of the input: `push VALUE`, `push-child VALUE PARENT`,
/// `get HANDLE`, `rewrite HANDLE VALUE`, `delete HANDLE`, `children HANDLE`, `fill`; or `counts`: the
/// next handle, whether there is none, and how many are live.
pub fn table(text: &mut String, alloc: Global, case: &Case) -> Result<(), AllocError> {
    let mut table = Table::new(alloc);
    for line in case.input().lines() {
        write!(text, "{line}: ")?;
        push_line(text, &mut table, line)?;
        text.push_str("\n")?;
    }
    Ok(())
}
