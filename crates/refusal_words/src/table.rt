//! What each line means, and what to do. Made by man/refusals.py from docs/refusals.txt.

/// The words that a line begins with, a sentence of what it means, and one of its cure. `{2}`
/// stands for the line's word of that number, counted from 0.
pub(crate) const TABLE: [(&str, &str, &str); 35] = [
    (
        "refused P1",
        "The path has more than 255 bytes.",
        "Give it a shorter path.",
    ),
    (
        "refused P2",
        "No path goes on with the byte at {2}, counted from 0.",
        "Spell it as /lib/alloc: no empty part, no / at the end, no blank.",
    ),
    (
        "refused O1",
        "The file has fewer than 64 bytes, or more than 1,048,576.",
        "If it is small, it may be a source or empty: give the .o file. If it is large, strip \
         what debuggers read (strip -g), or split the source.",
    ),
    (
        "refused O2",
        "The file is no ELF64 little-endian object for Linux.",
        "Compile for x86-64 Linux. An archive (.a), a source, a file of clang's -flto, or an \
         object of -m32 or of another system is none: give each .o of an archive (ar x).",
    ),
    (
        "refused O3",
        "The ELF file is no relocatable object for x86-64.",
        "Give what cc -c writes. A linked program, a shared library, or an object for another \
         processor is refused.",
    ),
    (
        "refused O4",
        "The table of sections doesn't lie in the file.",
        "The file was cut short, or no compiler wrote it: compile again. With \
         -ffunction-sections and more than 4,000 functions split the source.",
    ),
    (
        "refused O5",
        "Section {2} is too large, not in the file, or aligned too far.",
        "Align to a page at most, and split large tables. See readelf -S.",
    ),
    (
        "refused O6",
        "Section {2} is of a kind that isn't linked.",
        "For groups give templates and inline functions a home of their own, or compile with \
         -fno-weak; drop _Thread_local. See readelf -S, and readelf -g for groups.",
    ),
    (
        "refused O7",
        "The symbol table is faulty, or there are two.",
        "No compiler writes such a table: compile again. Too many symbols: split the source.",
    ),
    (
        "refused O8",
        "Symbol {2} isn't one that is linked.",
        "Leave out _Thread_local, ifunc and unique names (-fno-gnu-unique). See readelf -s.",
    ),
    (
        "refused O9",
        "The object defines {2} twice.",
        "No compiler does this: look at hand-written assembly, or at what ld -r or objcopy did.",
    ),
    (
        "refused O10",
        "The relocations of section {2} are faulty, or too many.",
        "Too many: split the source. Else the file is damaged: compile again.",
    ),
    (
        "refused O11",
        "Relocation {3} of table {2} isn't one that is linked.",
        "Leave out -mcmodel=large, and _Thread_local. See readelf -r.",
    ),
    (
        "refused B1",
        "The blueprint has more than 65,536 bytes.",
        "Split it: a path that it names may be a blueprint itself.",
    ),
    (
        "refused B2",
        "The byte at {2}, counted from 0, can stand in no word of a blueprint.",
        "Names and paths stand without quotes; a comment begins with a semicolon.",
    ),
    (
        "refused B3",
        "No blueprint goes on with what stands at {2}, counted from 0.",
        "The shape is (image (merge /a /b)), and omos-blueprint(5) has each operator's \
         operands.",
    ),
    (
        "refused B4",
        "The parenthesis at {2}, counted from 0, would be the 65th inside one another.",
        "Give an inner part a path of its own. A merge takes as many operands as you like.",
    ),
    (
        "refused B5",
        "At {2}, counted from 0, stands no number.",
        "Write 0x before hexadecimal digits.",
    ),
    (
        "refused B6",
        "The number at {2}, counted from 0, can't be an end of a range.",
        "Give whole pages, the lower first.",
    ),
    (
        "refused L1",
        "Nothing is published at {4}, which node {3} of {2} names.",
        "Publish it by omos put or omos blueprint. A server begins empty, also after a restart.",
    ),
    (
        "refused L2",
        "The blueprint {4} leads back to itself, by node {3} of {2}.",
        "Take the path out of one of them.",
    ),
    (
        "refused L3",
        "The blueprints stand more than 32 deep in one another, by node {3} of {2}.",
        "Merge some of the steps between into one blueprint.",
    ),
    (
        "refused L4",
        "The blueprint is too large, from node {3} of {2} on.",
        "Link parts of it by ld -r into one object first.",
    ),
    (
        "refused L5",
        "Two operands of the merge at node {3} of {2} define {4}.",
        "Choose one by override, or hide, restrict or rename the name on one side.",
    ),
    (
        "refused L6",
        "Nothing has the name {4} that the rename at node {3} of {2} renames.",
        "Look at the name (nm shows an object's), or take the operator out. What was hidden or \
         renamed inside is not seen outside.",
    ),
    (
        "refused L7",
        "{4} isn't defined in the operand of node {3} of {2}.",
        "Look at the name (nm shows an object's). What was hidden inside is not seen outside.",
    ),
    (
        "refused L8",
        "{4} is defined already in the operand of node {3} of {2}.",
        "Choose another name, or restrict the old definition first.",
    ),
    (
        "refused L9",
        "The image would have {2} pages.",
        "Take large arrays of zeros from the system (mmap) instead, or leave objects out.",
    ),
    (
        "refused L10",
        "The start, {2}, isn't defined.",
        "Define it (without a C library nothing else does), name another by (entry NAME), or \
         write (no_entry). What is hidden, or left out of a show, is not seen, and an object of \
         gcc's -flto has no code.",
    ),
    (
        "refused L11",
        "Nothing defines {4}.",
        "Merge an object that defines it, rename one side to the other's name, or declare it \
         weak. There is no C library: printf, memcpy and the like are to be brought along. \
         Compilers call memcpy, memset and __stack_chk_fail by themselves \
         (-fno-stack-protector).",
    ),
    (
        "refused L12",
        "There is no place for {2} pages between {3} and {4}.",
        "Give a wider range, or start a server anew.",
    ),
    (
        "refused L13",
        "A value doesn't fit its field.",
        "Leave -mcmodel out, compile with -fPIC for a range above 2 GiB, or use a smaller \
         addend.",
    ),
    (
        "full",
        "The server's record is full, and the request changed nothing.",
        "Start omosd anew, with more STEPS (65,536 at most), and publish again.",
    ),
    (
        "kept full",
        "All that was published would pass 268,435,456 bytes.",
        "Start omosd anew, and publish again.",
    ),
    (
        "no memory",
        "The server had no memory for the request.",
        "Give it more (ulimit -v, MemoryMax= of its unit), or a smaller cache, and ask again.",
    ),
];
