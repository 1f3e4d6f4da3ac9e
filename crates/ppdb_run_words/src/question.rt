// What a command asks of one file.

/// What is asked of a file, whose answer is lines of text or objects of JSON.
#[derive(Clone, Copy, Debug, PartialEq, Eq)]
pub enum Question<'a> {
    /// Its identity and its entry point.
    Id {
        json: bool,
    },
    /// Whether it keeps all rules.
    Verify,
    /// All rows.
    Show {
        json: bool,
    },
    /// What belongs to an offset of a method.
    Query {
        method: u32,
        offset: u32,
        json: bool,
    },
    /// The addresses of its documents.
    Links {
        json: bool,
    },
    /// The places at which a debugger may stop for a line of a document.
    Breaks {
        document: &'a str,
        line: u32,
        json: bool,
    },
}
