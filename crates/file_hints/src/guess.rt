//! What kind of file it is that is no object.

use crate::elf::{header, section_name};

const ET_EXEC: u16 = 2;

const ET_DYN: u16 = 3;

const EM_386: u16 = 3;

const EM_ARM: u16 = 40;

const EM_X86_64: u16 = 62;

const EM_AARCH64: u16 = 183;

const EM_RISCV: u16 = 243;

/// What an ELF file of 64-bit words is that is no object for x86-64.
fn guess_elf(file: &[u8]) -> Option<&'static str> {
    let header = header(file)?;
    Some(match header.e_machine {
        EM_386 => "It is for the 386: compile for x86-64.",
        EM_ARM => "It is for 32-bit ARM: compile for x86-64.",
        EM_AARCH64 => "It is for AArch64: compile for x86-64, as by x86_64-linux-gnu-gcc -c.",
        EM_RISCV => "It is for RISC-V: compile for x86-64, as by x86_64-linux-gnu-gcc -c.",
        EM_X86_64 => match header.e_type {
            ET_EXEC => "It is a program that is linked already: give the objects it was made of.",
            ET_DYN => {
                "It is a shared library, or a program that is linked already: give the objects it \
                 was made of."
            }
            _ => return None,
        },
        _ => return None,
    })
}

/// Whether the file is an object with sections of gcc's intermediate code.
fn holds_gcc_code(file: &[u8]) -> bool {
    let Some(header) = header(file) else {
        return false;
    };
    for number in 0..u32::from(header.e_shnum) {
        if section_name(file, number).is_some_and(|name| name.starts_with(".gnu.lto_")) {
            return true;
        }
    }
    false
}

/// What may be why an object lacks what it should define.
pub(crate) fn guess_lack(file: &[u8]) -> Option<&'static str> {
    if holds_gcc_code(file) {
        return Some("It holds gcc's intermediate code: compile without -flto.");
    }
    None
}

/// Whether a byte stands in texts: printable ASCII, a tab or the end of a line, or beyond ASCII.
fn is_of_text(byte: u8) -> bool {
    matches!(byte, b'\t' | b'\n' | b'\r' | 0x20..=0x7e | 0x80..=0xff)
}

/// What the file seems to be, by its first bytes.
pub(crate) fn guess(file: &[u8]) -> Option<&'static str> {
    if file.is_empty() {
        return Some("It is empty.");
    }
    if file.starts_with(b"!<arch>\n") || file.starts_with(b"!<thin>\n") {
        return Some("It is an archive: take it apart (ar x), and give each of its objects.");
    }
    if file.starts_with(b"BC\xc0\xde") {
        return Some("It is LLVM's intermediate code: compile without -flto.");
    }
    if file.starts_with(b"\x7fELF\x01") {
        return Some("It is an ELF file of 32-bit words: compile for x86-64, without -m32.");
    }
    if file.starts_with(b"\x7fELF\x02") {
        return guess_elf(file);
    }
    if file.starts_with(b"#!") {
        return Some("It is a script.");
    }
    if file.iter().all(|byte| is_of_text(*byte)) {
        return Some("It is a text, perhaps a source: compile it (cc -c), and give the .o file.");
    }
    None
}
