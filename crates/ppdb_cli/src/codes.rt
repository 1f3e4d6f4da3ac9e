// What each code of a fault, of a map that does not fit and of a limit means, and what to do about it.

/// The rules of the format, F1 to F40. The first line says what is wrong.
const FAULTS: [&str; 40] = [
    "F1: the file is not metadata: it does not begin with BSJB
It may be an assembly (.dll, .exe): `ppdb-tools extract` writes the debug file that is embedded in
one. Fewer than four bytes are a file that was cut off.
",
    "F2: the file is a Windows PDB, the format of older compilers
Build with portable debug files (DebugType portable), or convert the file.
",
    "F3: a field extends past the end of the file
Usually the file was cut off: fetch or build it again.
",
    "F4: the name of a stream is empty, not ASCII or too long
",
    "F5: a stream has a name that no Portable PDB uses
Delta files of Edit and Continue have such streams.
",
    "F6: two streams have the same name
",
    "F7: a stream extends past the end of the file
Usually the file was cut off: fetch or build it again.
",
    "F8: the stream #Pdb or #~ is missing: the file has metadata, but is not a debug file
",
    "F9: a field of the stream #Pdb extends past its end
",
    "F10: the stream #Pdb has a row count of a table that no module has
",
    "F11: a row count of the module is above 16777215
",
    "F12: the entry point is not a method of the module
",
    "F13: a field before the tables extends past the end of the stream #~
",
    "F14: the widths of heap indexes (HeapSizes) have an unknown bit
",
    "F15: the stream #~ has tables that no debug file has
",
    "F16: a row count is above 16777215
",
    "F17: a row extends past the end of the stream #~
",
    "F18: MethodDebugInformation has not as many rows as #Pdb gives for MethodDef
The tool that wrote the file made a mistake. To see whether a file belongs to a module, compare
`ppdb id` with the debug directory of the module.
",
    "F19: the file refers to a string (#Strings) that does not exist
",
    "F20: the file refers to a blob (#Blob) that does not exist
",
    "F21: the file refers to a GUID (#GUID) that does not exist, or a custom record has no kind
",
    "F22: a row does not exist
A reference is above the row count of its table, or 0 where 0 is not allowed.
",
    "F23: the parent of a custom record is in no table
",
    "F24: a document has no name
",
    "F25: two documents have the same name
",
    "F26: the scopes are not in order
The order is by method, then by start, and of two with one start the longer comes first.
",
    "F27: a scope is empty, or ends at 2147483648 or later
",
    "F28: two scopes of a method cross: their ranges meet, and neither contains the other
",
    "F29: the lists of variables or constants of the scopes are not in order
Or items belong to no scope. The F# compiler writes such files, and `ppdb-tools repair` repairs
them.
",
    "F30: two variables of a scope have the same slot
",
    "F31: two variables, or two constants, of a scope have the same name
",
    "F32: the chain of parents of an import scope never ends
",
    "F33: the state machines are not in strictly ascending order of MoveNext
",
    "F34: two state machines have the same kickoff method
",
    "F35: the custom records are not in order of their parents
",
    "F36: a custom record is on a row of a table where its kind has no meaning
A record of async stepping or hoisted scopes belongs to a method, one of type documents to a type.
",
    "F37: a blob ends inside a field
",
    "F38: a compressed number begins with e0 or a greater byte
",
    "F39: a field of a blob has a value that is not allowed, or bytes follow the last field
The table in the place says what the blob is: 30 the name of a document, 31 points, 34 a constant,
35 imports, 37 a custom record. The F# compiler (31) and Mono.Cecil (34, a null constant of the type
object) write such files, and `ppdb-tools repair` repairs them.
",
    "F40: the strings and blobs that the file refers to have more than 268435456 bytes in total
The file was made to be large, or refers to one blob very often.
",
];

/// How a file and its map do not fit, M1 to M13.
const MISFITS: [&str; 13] = [
    "M1: the map gives a row no new row
The line is `unfit IN M1 table TT row R at PLACE`.
PLACE is where the file refers to row R of table TT; `pdb byte 20` is the entry point. Add the row
line of R, the drop line of a method that was removed, or the gone line of another row that was
removed.
",
    "M2: two rows became one
The line is `unfit IN M2 table TT rows A B image I`.
Correct one of the two row lines, or drop one of two methods. Types and assemblies (tables 01, 02,
1b and 23) that are one now need a shares line.
",
    "M3: two inputs have the same new method
The line is `unfit IN M3 input K row A row B image I`.
Method B of this input and method A of input K became method I. Correct one of the two maps, or
remove an input that is named twice.
",
    "M4: an offset is past the old size of its method
The line is `unfit IN M4 method M offset O size S`.
A point or an async offset is not below the size S, or a scope or hoisted range ends above it. The
map is for another build of the module, or has the size after the rewrite.
",
    "M5: an async method stops at an offset that the map does not keep
The line is `unfit IN M5 method M offset O`.
The method pauses, resumes or catches there: add a run line that keeps the offset.
",
    "M6: a custom record has a kind that ppdb does not know
The line is `unfit IN M6 row R kind GUID`.
Its value may refer to something that moves. If it refers to no row, offset or slot, pass --free
with the kind.
",
    "M7: documents of the same name differ
The line is `unfit IN M7 document R joined J`.
Document R has the name of document J of the earlier inputs, and another hash, algorithm or
language: the modules were compiled from different sources. Compile them from the same ones, or give
one of the two another name by a document line of its map.
",
    "M8: the maps give different row counts for a table
The line is `unfit IN M8 table TT rows A B`.
Write the same rows line into each map, with the number of the new module.
",
    "M9: a new row is above the row count of its table
The line is `unfit IN M9 table TT row R image I rows N`.
Correct the row line or the rows line. In table 11 the number that is too high may be NEW of a
signature line.
",
    "M10: the map gives the slot of a variable no new slot
The line is `unfit IN M10 variable R slot S`.
Add the slot line of S.
",
    "M11: two slots of a method became one
The line is `unfit IN M11 method M slots A B image I`.
Correct one of the two slot lines.
",
    "M12: two documents have the same name by the map
The line is `unfit IN M12 documents A B`.
Correct one of the two document lines.
",
    "M13: an earlier input has another Source Link record
The line is `unfit IN M13 row R`.
The map has a link line, and R is the row of the record in table 37. Write the same link line into
the map of each input that has such a record.
",
];

/// The limits of a file that is written, L1 to L6.
const LIMITS: [&str; 6] = [
    "L1: a table would have more than 16777215 rows
The line is `limit L1 table TT rows N`.
Join fewer inputs.
",
    "L2: a table would have 65535 rows, and the last scope would own none of them
The line is `limit L2 table TT rows 65535`.
The format cannot express this: join another input too.
",
    "L3: a point would be at the offset 536870912 or later
The line is `limit L3 method M offset O`.
The map moves it too far.
",
    "L4: the lines of two points are too far apart
The line is `limit L4 method M step S`.
The point between them is gone, and the step S does not fit into 28 bits: add a run line that keeps
the point.
",
    "L5: the new file would be longer than 134217728 bytes
The line is `limit L5 bytes N`.
There are too many inputs, or IN has, for example, a document whose name repeats one long part many
times.
",
    "L6: the strings and blobs to which the new file refers would be too long
The line is `limit L6 total N`.
Counted once for each reference, they would have more than 268435456 bytes.
",
];

/// What the program says of a code.
pub fn code_text(code: &str) -> Option<&'static str> {
    let (letter, number) = code.split_at_checked(1)?;
    let texts = match letter {
        "F" => FAULTS.as_slice(),
        "M" => MISFITS.as_slice(),
        "L" => LIMITS.as_slice(),
        _ => return None,
    };
    texts.get(place(number)?).copied()
}

/// The place of a number from 1 on, without zeros before it or a sign.
fn place(number: &str) -> Option<usize> {
    if !number.starts_with(|first: char| matches!(first, '1'..='9')) {
        return None;
    }
    number.parse::<usize>().ok()?.checked_sub(1)
}

/// The sentence that says what is wrong, with its code.
pub fn sentence(code: &str) -> Option<&'static str> {
    let (line, _) = code_text(code)?.split_once('\n')?;
    Some(line)
}
