//! Draws a log: a column for the guest, for the embedder's check, for lookups and for each network
//! socket, and a row for each entry.

use crate::columns::{Asked, Column, Columns, asked_of};
use crate::svg::{Point, Tone, allows, cross, dot, goes_on, label, line, text};
use crate::yes::allowed_by;
use std::alloc::{AllocError, Global};
use std::fmt::Write;
use wasi_world::{Call, Entry, Told};
use world_text::text::{CallText, ToldText};

/// The lines of the script whose entries are drawn, both counted from 1 and included.
#[derive(Clone, Copy, Debug, PartialEq, Eq)]
pub struct Part {
    pub from: u32,
    pub upto: u32,
}

/// The height of a row.
const ROW: usize = 20;
/// Where the first row is.
const TOP: usize = 84;
/// Where the numbers of lines are.
const LINES: usize = 12;
/// Where the entries' texts begin.
const TEXTS: usize = 76;
/// The width of a character of a text.
const CHARACTER: usize = 8;
/// How many characters of an entry are shown.
const MOST_SHOWN: usize = 60;
/// The width of a column.
const COLUMN: usize = 64;

/// A column that begins below so many rows has its name there too.
const FAR: usize = 24;
/// Behind so many columns of network sockets, a row's text stands at its network socket too.
const WIDE: usize = 12;

/// A row: an entry, with its text and its place in the log.
#[derive(Drop)]
struct Row<'a> {
    place: usize,
    entry: &'a Entry,
    text: String,
}

/// Where things are.
#[derive(Clone, Copy)]
struct Layout {
    guest: usize,
    check: usize,
    lookups: usize,
    sockets: usize,
    /// From where on a row's text stands at its network socket too.
    far: usize,
    width: usize,
    bottom: usize,
}

impl Layout {
    fn of(rows: &[Row<'_>], columns: &Columns) -> Layout {
        let longest = rows.iter().map(|row| row.text.len()).max().unwrap_or(0);
        let shown = longest.min(MOST_SHOWN).max(24);
        let guest = TEXTS + shown.saturating_mul(CHARACTER) + 36;
        let check = guest.saturating_add(COLUMN);
        let lookups = check.saturating_add(COLUMN);
        let sockets = if columns.looks_up {
            lookups.saturating_add(COLUMN)
        } else {
            lookups
        };
        let far = sockets.saturating_add(WIDE * COLUMN);
        let texts = if columns.count > WIDE { guest } else { 0 };
        Layout {
            guest,
            check,
            lookups,
            sockets,
            far,
            width: sockets
                .saturating_add(columns.count.max(2).saturating_mul(COLUMN))
                .saturating_add(texts),
            bottom: row_at(rows.len()),
        }
    }

    /// Where the column of a network socket is.
    fn socket(&self, place: usize) -> usize {
        self.sockets.saturating_add(place.saturating_mul(COLUMN))
    }
}

/// Where a row is.
fn row_at(row: usize) -> usize {
    TOP.saturating_add(row.saturating_mul(ROW))
}

/// How an answer is coloured.
fn tone(told: &Told) -> Tone {
    match told {
        Told::Yes => Tone::Yes,
        Told::No => Tone::No,
        Told::Code(_) => Tone::Fault,
        Told::Pending => Tone::Pending,
        _ => Tone::Plain,
    }
}

/// The text of an entry's call and answer.
fn entry_text(alloc: Global, entry: &Entry) -> Result<String, AllocError> {
    let mut text = String::new(alloc);
    match &entry.call {
        Call::Lookup { host } => {
            write!(text, "lookup {}", host.as_slice().escape_ascii())?;
        }
        call => write!(text, "{}", CallText(call))?,
    }
    write!(text, " = {}", ToldText(&entry.answer))?;
    Ok(text)
}

/// The rows of the entries whose operations were begun by these lines.
fn rows_of(alloc: Global, log: &[Entry], part: Part) -> Result<Vec<Row<'_>>, AllocError> {
    let mut rows = Vec::new(alloc);
    for (place, entry) in log.iter().enumerate() {
        let line = entry.op.step;
        if part.from <= line && line <= part.upto {
            let text = entry_text(alloc, entry)?;
            rows.push(Row { place, entry, text })?;
        }
    }
    Ok(rows)
}

/// Draws the entries of a log whose operations were begun by these lines. A yes is joined to the
/// bind, listen, connect, datagram or connection that it allows. Takes memory for the picture.
pub fn draw(alloc: Global, log: &[Entry], part: Part) -> Result<String, AllocError> {
    let rows = rows_of(alloc, log, part)?;
    let mut entries = Vec::new(alloc);
    for row in rows.iter() {
        entries.push(row.entry)?;
    }
    let columns = Columns::of(alloc, entries.as_slice())?;
    let layout = Layout::of(rows.as_slice(), &columns);
    let is_whole = rows.len() == log.len();
    let mut svg = String::new(alloc);
    push_head(&mut svg, &layout)?;
    push_lifelines(&mut svg, &layout, &columns, is_whole)?;
    push_rows(&mut svg, &layout, &columns, log, rows.as_slice())?;
    if is_whole {
        push_end(&mut svg, &layout, &columns)?;
    }
    svg.push_str("</svg>\n")?;
    Ok(svg)
}

/// Appends the head: the size, what the colours mean, and a white ground.
fn push_head(svg: &mut String, layout: &Layout) -> Result<(), AllocError> {
    let width = layout.width;
    let height = layout.bottom.saturating_add(ROW);
    write!(
        svg,
        "<svg xmlns=\"http://www.w3.org/2000/svg\" width=\"{width}\" height=\"{height}\" viewBox=\"0 0 {width} {height}\" font-family=\"monospace\" font-size=\"13\">\n"
    )?;
    write!(svg, "<title>A log of wasi:sockets</title>\n")?;
    write!(
        svg,
        "<rect width=\"{width}\" height=\"{height}\" fill=\"#ffffff\"/>\n"
    )?;
    let keys = [
        (Tone::Yes, "yes"),
        (Tone::No, "no"),
        (Tone::Fault, "code"),
        (Tone::Pending, "pending"),
        (Tone::Plain, "any other answer"),
    ];
    let mut x = LINES;
    for (tone, name) in keys {
        dot(svg, Point { x, y: 18 }, tone)?;
        let at = Point {
            x: x.saturating_add(10),
            y: 22,
        };
        text(svg, at, tone, name.as_bytes())?;
        x = x
            .saturating_add(40)
            .saturating_add(name.len().saturating_mul(CHARACTER));
    }
    Ok(())
}

/// Appends a name over a column, and the line down from it.
fn push_column(
    svg: &mut String,
    x: usize,
    name: &str,
    top: usize,
    bottom: usize,
) -> Result<(), AllocError> {
    label(svg, Point { x, y: 52 }, name.as_bytes())?;
    line(
        svg,
        Point { x, y: top },
        Point { x, y: bottom },
        Tone::Quiet,
    )
}

/// Appends the columns.
fn push_lifelines(
    svg: &mut String,
    layout: &Layout,
    columns: &Columns,
    is_whole: bool,
) -> Result<(), AllocError> {
    let top = TOP - ROW;
    push_column(svg, layout.guest, "guest", top, layout.bottom)?;
    push_column(svg, layout.check, "check", top, layout.bottom)?;
    if columns.looks_up {
        push_column(svg, layout.lookups, "lookup", top, layout.bottom)?;
    }
    if !columns.list.is_empty() {
        let at = Point {
            x: layout.sockets.saturating_sub(12),
            y: 36,
        };
        text(svg, at, Tone::Plain, b"network sockets")?;
    }
    for column in columns.list.iter() {
        let x = layout.socket(column.place);
        if column.is_first {
            push_socket_name(svg, Point { x, y: 52 }, column)?;
        }
        if column.first > FAR || !column.is_first {
            let y = row_at(column.first).saturating_sub(8);
            push_socket_name(svg, Point { x, y }, column)?;
        }
        push_lifeline(svg, layout, column, is_whole)?;
    }
    Ok(())
}

/// Appends the line down from a network socket's first row: to where it is closed, or to the end.
/// One that gave up its place before is marked.
fn push_lifeline(
    svg: &mut String,
    layout: &Layout,
    column: &Column,
    is_whole: bool,
) -> Result<(), AllocError> {
    let x = layout.socket(column.place);
    let from = Point {
        x,
        y: row_at(column.first),
    };
    if column.is_closed || (is_whole && !column.is_made) {
        let y = row_at(column.upto.saturating_sub(1));
        return line(svg, from, Point { x, y }, Tone::Quiet);
    }
    let Some(next) = column.next else {
        let y = layout.bottom;
        return line(svg, from, Point { x, y }, Tone::Quiet);
    };
    let to = Point {
        x,
        y: row_at(next).saturating_sub(ROW + ROW / 2),
    };
    line(svg, from, to, Tone::Quiet)?;
    goes_on(svg, to)
}

/// Appends the name of a network socket: the line that made it, and its part.
fn push_socket_name(svg: &mut String, at: Point, column: &Column) -> Result<(), AllocError> {
    let (step, part) = (column.sock.step, column.sock.part);
    let Point { x, y } = at;
    write!(
        svg,
        "<text x=\"{x}\" y=\"{y}\" text-anchor=\"middle\">{step} {part}</text>\n"
    )
}

/// Where an entry's arrow ends.
fn target(layout: &Layout, columns: &Columns, entry: &Entry) -> Option<usize> {
    match asked_of(entry) {
        Asked::Check => Some(layout.check),
        Asked::Lookup => Some(layout.lookups),
        Asked::Socket(sock) => columns.place(sock).map(|place| layout.socket(place)),
        Asked::Noted => None,
    }
}

/// Appends the rows.
fn push_rows(
    svg: &mut String,
    layout: &Layout,
    columns: &Columns,
    log: &[Entry],
    rows: &[Row<'_>],
) -> Result<(), AllocError> {
    let mut last = 0;
    for (number, row) in rows.iter().enumerate() {
        let y = row_at(number);
        let step = row.entry.op.step;
        if step != last {
            push_line_number(svg, layout, y, step)?;
        }
        last = step;
        push_row(svg, layout, columns, y, row)?;
        let before = &log[..row.place.min(log.len())];
        if let Some(place) = allowed_by(before, row.entry.op, &row.entry.call) {
            push_yes(
                svg,
                layout,
                columns,
                &rows[..number.min(rows.len())],
                place,
                Point { x: 0, y },
                row.entry,
            )?;
        }
    }
    Ok(())
}

/// Appends the number of the line that began what follows, under a rule.
fn push_line_number(
    svg: &mut String,
    layout: &Layout,
    y: usize,
    step: u32,
) -> Result<(), AllocError> {
    let above = y.saturating_sub(ROW / 2);
    let from = Point { x: LINES, y: above };
    let to = Point {
        x: layout.guest,
        y: above,
    };
    line(svg, from, to, Tone::Quiet)?;
    let (x, y) = (LINES, y.saturating_add(4));
    write!(svg, "<text x=\"{x}\" y=\"{y}\">{step}</text>\n")
}

/// Appends the front of a row's text.
fn push_text(svg: &mut String, at: Point, tone: Tone, row: &Row<'_>) -> Result<(), AllocError> {
    let y = at.y.saturating_add(4);
    let bytes = row.text.as_bytes();
    let shown = &bytes[..bytes.len().min(MOST_SHOWN)];
    text(svg, Point { x: at.x, y }, tone, shown)?;
    if shown.len() < bytes.len() {
        let x = at.x.saturating_add(MOST_SHOWN * CHARACTER);
        text(svg, Point { x, y }, tone, b"..")?;
    }
    Ok(())
}

/// Appends one row: its text, and a line to whom it asks.
fn push_row(
    svg: &mut String,
    layout: &Layout,
    columns: &Columns,
    y: usize,
    row: &Row<'_>,
) -> Result<(), AllocError> {
    let tone = tone(&row.entry.answer);
    push_text(svg, Point { x: TEXTS, y }, tone, row)?;
    let guest = Point { x: layout.guest, y };
    if let Some(x) = target(layout, columns, row.entry) {
        if x >= layout.far {
            let beside = x.saturating_add(10);
            push_text(svg, Point { x: beside, y }, tone, row)?;
        }
        line(svg, guest, Point { x, y }, tone)?;
        match row.entry.call {
            Call::Close { .. } => cross(svg, Point { x, y })?,
            _ => dot(svg, Point { x, y }, tone)?,
        }
    }
    dot(svg, guest, Tone::Quiet)
}

/// Joins the yes at a place of the log, which is among these rows, to the call that it allows.
fn push_yes(
    svg: &mut String,
    layout: &Layout,
    columns: &Columns,
    rows: &[Row<'_>],
    place: usize,
    at: Point,
    entry: &Entry,
) -> Result<(), AllocError> {
    let Some(x) = target(layout, columns, entry) else {
        return Ok(());
    };
    let Some(row) = rows.iter().rposition(|row| row.place == place) else {
        return Ok(());
    };
    let yes = Point {
        x: layout.check,
        y: row_at(row),
    };
    allows(svg, yes, Point { x, y: at.y })
}

/// Appends the end: the network sockets that are open are closed.
fn push_end(svg: &mut String, layout: &Layout, columns: &Columns) -> Result<(), AllocError> {
    let y = layout.bottom;
    let mut count: u64 = 0;
    for column in columns.list.iter() {
        if column.is_made && !column.is_closed {
            count = count.saturating_add(1);
            if column.next.is_none() {
                let x = layout.socket(column.place);
                cross(svg, Point { x, y })?;
            }
        }
    }
    let (x, y) = (TEXTS, y.saturating_add(4));
    write!(
        svg,
        "<text x=\"{x}\" y=\"{y}\">end: {count} closed</text>\n"
    )
}
