//! Tables of cells, in columns.
use crate::texts::Text;
use crate::times::{put_share, put_time};
use std::alloc::Global;

/// Cells in rows, and how wide each column is. The table's text is cut where memory is refused for a cell.
#[derive(Drop)]
pub struct Table {
    alloc: Global,
    rows: Vec<Vec<Text>>,
    // the cells of the row that is being written
    cells: Vec<Text>,
    widths: Vec<usize>,
    is_cut: bool,
}

// Appends a cell, and blanks up to a width and two more where another cell follows.
fn put_cell(text: &mut Text, cell: &Text, width: usize, is_last: bool) {
    text.put_text(cell);
    if is_last {
        return;
    }
    for _ in cell.len()..width {
        text.put_char(' ');
    }
    text.put("  ");
}

// Appends a row, its cells as wide as the columns.
fn put_row(text: &mut Text, row: &[Text], widths: &[usize]) {
    for (column, cell) in row.iter().enumerate() {
        let width = widths.get(column).copied().unwrap_or(0);
        put_cell(text, cell, width, column.saturating_add(1) == row.len());
    }
    text.put_char('\n');
}

impl Table {
    /// A table whose first row begins with these heads.
    pub fn with_heads(alloc: Global, heads: &[&str]) -> Table {
        let mut table = Table {
            alloc,
            rows: Vec::new(alloc),
            cells: Vec::new(alloc),
            widths: Vec::new(alloc),
            is_cut: false,
        };
        for head in heads {
            table.put_text(head);
        }
        table
    }

    // Makes a column as wide as a cell; a column that is new is at the end.
    fn widen(&mut self, column: usize, width: usize) {
        if column < self.widths.len() {
            self.widths[column] = self.widths[column].max(width);
        } else {
            self.is_cut = self.widths.push(width).is_err() || self.is_cut;
        }
    }

    // The column of the next cell.
    fn column(&self) -> usize {
        self.cells.len()
    }

    // Appends a cell to the row.
    fn put(&mut self, cell: Text) {
        let column = self.column();
        self.widen(column, cell.len());
        self.is_cut = self.cells.push(cell).is_err() || self.is_cut;
    }

    /// Ends the row.
    pub fn end_row(&mut self) {
        let row = std::mem::replace(&mut self.cells, Vec::new(self.alloc));
        self.is_cut = self.rows.push(row).is_err() || self.is_cut;
    }

    /// Appends a text to the row.
    pub fn put_text(&mut self, text: &str) {
        let mut cell = Text::new(self.alloc);
        cell.put(text);
        self.put(cell);
    }

    /// Appends a count.
    pub fn put_count(&mut self, count: u64) {
        let mut cell = Text::new(self.alloc);
        cell.put_number(count);
        self.put(cell);
    }

    /// Appends a time.
    pub fn put_time(&mut self, time: u64) {
        let mut cell = Text::new(self.alloc);
        put_time(&mut cell, time);
        self.put(cell);
    }

    /// Appends a date; a bar where there is none.
    pub fn put_date(&mut self, date: Option<u64>) {
        match date {
            Some(date) => self.put_time(date),
            None => self.put_text("-"),
        }
    }

    /// Appends a share, in percent.
    pub fn put_share(&mut self, part: u64, whole: u64) {
        let mut cell = Text::new(self.alloc);
        put_share(&mut cell, part, whole);
        self.put(cell);
    }

    /// Appends the table to a text: a line for each row, its columns one below the other.
    pub fn write(&self, text: &mut Text) {
        for row in &self.rows {
            put_row(text, row.as_slice(), self.widths.as_slice());
        }
        if self.is_cut {
            text.cut();
        }
    }
}
