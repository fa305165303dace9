//! The tokens of a policy text.

use crate::lines::Lines;
use merlin_text::{Kind, Sign, Token, TokenFault, Word, tokens};
use std::alloc::Global;

fn word_text(word: Word) -> &'static str {
    match word {
        Word::True => "true",
        Word::False => "false",
        Word::And => "and",
        Word::Or => "or",
        Word::Foreach => "foreach",
        Word::In => "in",
        Word::Cross => "cross",
        Word::Default => "default",
        Word::At => "at",
        Word::Max => "max",
        Word::Min => "min",
    }
}

fn sign_text(sign: Sign) -> &'static str {
    match sign {
        Sign::Becomes => ":=",
        Sign::Arrow => "->",
        Sign::OpenList => "[",
        Sign::CloseList => "]",
        Sign::OpenGroup => "(",
        Sign::CloseGroup => ")",
        Sign::OpenSet => "{",
        Sign::CloseSet => "}",
        Sign::Colon => ":",
        Sign::Semicolon => ";",
        Sign::Comma => ",",
        Sign::Equals => "=",
        Sign::Plus => "+",
        Sign::Star => "*",
        Sign::Bang => "!",
        Sign::Dot => ".",
        Sign::Bar => "|",
    }
}

// A word, and a text or a number that tells a token from others of its kind.
fn add_value(out: &mut Lines, word: &str, value: u64) {
    out.add(word);
    out.add_numbers(&[value]);
}

fn add_text(out: &mut Lines, word: &str, text: &str) {
    out.add(word);
    out.add(text);
}

// What a token is.
fn add_kind(out: &mut Lines, kind: Kind) {
    match kind {
        Kind::Name => out.add("name"),
        Kind::Word(word) => add_text(out, "word ", word_text(word)),
        Kind::Number(number) => add_value(out, "number", u64::from(number)),
        Kind::Rate(rate) => add_value(out, "rate", rate),
        Kind::Mac(mac) => add_value(out, "mac", mac),
        Kind::Ip(ip) => add_value(out, "ip", u64::from(ip)),
        Kind::Prefix { value, .. } => add_value(out, "prefix", u64::from(value)),
        Kind::Sign(sign) => add_text(out, "sign ", sign_text(sign)),
    }
}

// Adds a token: its kind, what it stands for, and the bytes from its first to the one behind its last.
fn add_token(out: &mut Lines, token: &Token) {
    add_kind(out, token.kind);
    if let Kind::Prefix { length, .. } = token.kind {
        out.add("/");
        out.add_number(u64::from(length));
    }
    out.add_numbers(&[token.span.start as u64]);
    out.add("-");
    out.add_number(token.span.end as u64);
}

// All tokens, in one line.
fn add_tokens(out: &mut Lines, tokens: &[Token]) {
    out.add("0\n");
    for (place, token) in tokens.iter().enumerate() {
        if place > 0 {
            out.add("; ");
        }
        add_token(out, token);
    }
    out.add("\n");
}

/// `tokens|FILE`: the tokens of a text, or its first fault.
pub fn answer_to(alloc: Global, bytes: &[u8], out: &mut Lines) {
    match tokens(alloc, bytes) {
        Ok(tokens) => add_tokens(out, &tokens),
        Err(TokenFault::BadByte { at }) => out.answer_at("byte", at),
        Err(TokenFault::BadNumber { at }) => out.answer_at("number", at),
        Err(TokenFault::OutOfMemory) => out.cut(),
    }
}
