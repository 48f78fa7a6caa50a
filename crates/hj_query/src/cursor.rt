ghost use Rattle.std.specs.Prelude.{◌≡◌, ◌<◌, ◌≤◌, ◌^◌, [], ◌∷◌, false, length, IsTrue, MatchResult, OnOk};
ghost use Rattle.std.specs.Str.{IsUtf8};
ghost use Rattle.hj_lex.specs.Tokens.{bytes_of, AreTokens};
ghost use Rattle.hj_lex.specs.declared.token.TokenKind.TheVariants as kinds;
ghost use Rattle.hj_query.specs.declared.fault.Wanted.TheVariants as wants;
ghost use Rattle.hj_query.specs.Faults.{IsExpected};
ghost use Rattle.hj_query.specs.Lexemes.{behind, is_same_kind, lexeme, lexemes, next_has, next_is, place, IsNextToken, IsNumber, IsSign, IsText, IsWord, LacksKind, LacksSign, LacksWord, SuitsKind};
ghost use Rattle.hj_query.specs.Texts.{Unless};

use crate::{QueryFault, Wanted};
use hj_lex::{Token, TokenKind, Tokens, number_value, text_value};
use hj_value::TextBytes;
use std::alloc::Global;
use std::marker::Model;

/// A token with its bytes.
#[derive(Clone, Copy)]
pub struct Lexeme<'a> {
    pub place: usize,
    pub kind: TokenKind,
    pub bytes: &'a [u8],
}

/// A place among the tokens of a text, seen as the list of the tokens from there on, with the end of the text.
#[derive(Drop)]
pub struct Cursor<'a> {
    text: &'a [u8],
    tokens: &'a Tokens,
    at: usize,
}

impl<'a> Model for Cursor<'a> {
    ghost use Rattle.std.specs.Prelude.{◌≤◌, List, drop, length};
    ghost use Rattle.hj_lex.specs.Tokens.{AreTokens};
    ghost use Rattle.hj_query.specs.Lexemes.{Lexeme, lexemes};

    ghost Value = { List Lexeme };

    ghost view = { λ c. drop c.at (lexemes c.text.now c.tokens.now) };

    ghost invariant = { λ c. (c.at ≤ length c.tokens.now) × AreTokens c.text.now c.tokens.now };
}

impl<'a> Cursor<'a> {
    /// Makes a cursor at the first token of a text.
    pub fn new(text: &'a [u8], tokens: &'a Tokens) -> Self
        requires { AreTokens text.now tokens.now }
        ensures { result ≡ lexemes text.now tokens.now }
    {
        Cursor {
            text,
            tokens,
            at: 0,
        }
    }

    /// Returns the next token, or the end of the text.
    fn peek(&self) -> Lexeme<'a>
        ensures next { self.now ≡ lexeme result.place result.kind result.bytes.now ∷ behind self.now }
        ensures suits { SuitsKind result.kind result.bytes.now }
    {
        match self.tokens.get(self.at) {
            Some(token) => Lexeme {
                place: token.from,
                kind: token.kind,
                bytes: bytes_of(self.text, token),
            },
            None => Lexeme {
                place: self.text.len(),
                kind: TokenKind::Sign,
                bytes: &[],
            },
        }
    }

    /// Returns the place of the next token.
    pub fn place(&self) -> usize
        ensures { result ≡ place self.now }
    {
        self.peek().place
    }

    /// Returns whether the next token is of this kind and has these bytes.
    fn is(&self, kind: TokenKind, bytes: &[u8]) -> bool
        ensures { result ≡ next_is kind bytes.now self.now }
    {
        let next = self.peek();
        is_kind(next.kind, kind) && next.bytes == bytes
    }

    /// Returns whether the next token is this word.
    pub fn is_word(&self, word: &[u8]) -> bool
        ensures is { result ≡ next_is kinds.Name word.now self.now }
        ensures not_end { IsTrue result → LacksSign [] self.now }
    {
        self.is(TokenKind::Name, word)
    }

    /// Returns whether the next token is this sign; no bytes stand for the end.
    pub fn is_sign(&self, sign: &[u8]) -> bool
        ensures is { result ≡ next_is kinds.Sign sign.now self.now }
        ensures not_end { 0 < length sign.now → IsTrue result → LacksSign [] self.now }
    {
        self.is(TokenKind::Sign, sign)
    }

    /// Returns whether the next token is a number.
    pub fn is_number(&self) -> bool
        ensures { result ≡ next_has kinds.Number self.now }
    {
        is_kind(self.peek().kind, TokenKind::Number)
    }

    /// Goes past the next token.
    pub fn skip(&mut self)
        requires { LacksSign [] self.old }
        ensures behind { self.new ≡ behind self.old }
        ensures shorter { length self.new < length self.old }
    {
        self.at += 1;
    }

    /// Returns the fault of a next token that isn't what is wanted.
    pub fn expected(&self, wanted: Wanted) -> QueryFault
        ensures { IsExpected wanted self.now result }
    {
        QueryFault::Expected(wanted, self.place())
    }

    /// Takes this word.
    pub fn word(&mut self, word: &[u8], wanted: Wanted) -> Result<(), QueryFault>
        ensures shorter { OnOk result (length self.new < length self.old) }
        ensures read { MatchResult result
            (λ _. IsWord word.now self.old self.new)
            (λ fault. LacksWord word.now self.old × IsExpected wanted self.old fault) }
    {
        if !self.is_word(word) {
            return Err(self.expected(wanted));
        }
        self.skip();
        Ok(())
    }

    /// Takes this sign.
    pub fn sign(&mut self, sign: &[u8], wanted: Wanted) -> Result<(), QueryFault>
        requires { 0 < length sign.now }
        ensures shorter { OnOk result (length self.new < length self.old) }
        ensures read { MatchResult result
            (λ _. IsSign sign.now self.old self.new)
            (λ fault. LacksSign sign.now self.old × IsExpected wanted self.old fault) }
    {
        if !self.is_sign(sign) {
            return Err(self.expected(wanted));
        }
        self.skip();
        Ok(())
    }

    /// Takes a token of this kind, which isn't that of signs.
    fn take(&mut self, kind: TokenKind, wanted: Wanted) -> Result<&'a [u8], QueryFault>
        requires { is_same_kind kind kinds.Sign ≡ false }
        ensures shorter { OnOk result (length self.new < length self.old) }
        ensures read { MatchResult result
            (λ bytes. IsNextToken kind bytes.now self.old self.new × SuitsKind kind bytes.now)
            (λ fault. LacksKind kind self.old × IsExpected wanted self.old fault) }
    {
        let next = self.peek();
        if !is_kind(next.kind, kind) {
            return Err(self.expected(wanted));
        }
        self.skip();
        Ok(next.bytes)
    }

    /// Takes the name of a column.
    pub fn name(&mut self) -> Result<&'a [u8], QueryFault>
        ensures shorter { OnOk result (length self.new < length self.old) }
        ensures read { MatchResult result
            (λ name. IsWord name.now self.old self.new × IsUtf8 name.now)
            (λ fault. LacksKind kinds.Name self.old × IsExpected wants.ColumnName self.old fault) }
    {
        self.take(TokenKind::Name, Wanted::ColumnName)
    }

    /// Takes a number.
    pub fn number(&mut self) -> Result<u64, QueryFault>
        ensures shorter { OnOk result (length self.new < length self.old) }
        ensures read { MatchResult result
            (λ number. IsNumber number self.old self.new × (number < 2 ^ 63))
            (λ fault. LacksKind kinds.Number self.old × IsExpected wants.Number self.old fault) }
    {
        let digits = self.take(TokenKind::Number, Wanted::Number)?;
        Ok(number_value(digits) as u64)
    }

    /// Takes a text.
    pub fn text(&mut self, alloc: Global) -> Result<TextBytes, QueryFault>
        ensures shorter { OnOk result (length self.new < length self.old) }
        ensures read { MatchResult result
            (λ text. IsText text self.old self.new)
            (λ fault. Unless fault (λ fault. LacksKind kinds.Text self.old × IsExpected wants.Term self.old fault)) }
    {
        let bytes = self.take(TokenKind::Text, Wanted::Term)?;
        Ok(text_value(alloc, bytes)?)
    }
}

/// Returns whether two kinds of tokens are the same.
fn is_kind(found: TokenKind, kind: TokenKind) -> bool
    ensures { result ≡ is_same_kind found kind }
{
    found == kind
}

/// Returns the bytes of a token.
fn bytes_of<'a>(text: &'a [u8], token: &Token) -> &'a [u8]
    requires black { token.now.from < token.now.to }
    requires inside { token.now.to ≤ length text.now }
    ensures { result.now ≡ bytes_of text.now token.now }
{
    &text[token.from..token.to]
}
