//! Symbols: names from a constrained domain.

ghost use Rattle.amqp_base.specs.Meaning.{scalar_of};
ghost use Rattle.amqp_base.specs.Sorts.{as_symbol};
ghost use Rattle.amqp_types.specs.Texts.{a_symbol_ref};
ghost use Rattle.std.specs.Prelude.{◌≡◌, ◌||◌, true, false, refl, IfOk, IfErr};
ghost use Rattle.std.specs.Prelude.{string_bytes};
ghost use Rattle.amqp_base.specs.declared.error.Error.TheVariants.{OutOfMemory};

use amqp_base::{Error, NeverNull, RoundTrip, Typed};
use std::alloc::Global;
use std::ops::{Deref, DerefMut};

/// A symbolic value (part 1, section 1.6.21). The standard has ASCII alone; here any UTF-8 text is
/// a symbol.
#[derive(Debug, PartialEq, Eq, PartialOrd, Ord, Hash, Drop)]
pub struct Symbol(pub String);

impl Symbol {
    /// The symbol of a text.
    pub fn new(text: String) -> Symbol
        ensures { result.0 ≡ text }
    {
        Symbol(text)
    }

    /// A symbol of the same text; `OutOfMemory` where it finds no memory.
    pub fn from_str(alloc: Global, text: &str) -> Result<Symbol, Error>
        ensures ok { IfOk result (λ s. string_bytes s.0 ≡ text.now) }
        ensures err { IfErr result (λ e. e ≡ OutOfMemory) }
    {
        Ok(Symbol(String::from_str(alloc, text)?))
    }

    /// A symbol of the same text; `OutOfMemory` where it finds no memory.
    pub fn from_ref(alloc: Global, symbol: SymbolRef<'_>) -> Result<Symbol, Error>
        ensures ok { IfOk result (λ s. string_bytes s.0 ≡ symbol.entry.0.now) }
        ensures err { IfErr result (λ e. e ≡ OutOfMemory) }
    {
        Symbol::from_str(alloc, symbol.0)
    }

    /// Its text.
    pub fn into_inner(self) -> String
        ensures { result ≡ self.0 }
    {
        let Symbol(own) = self;
        own
    }

    /// Its text, lent.
    #[inline(always)]
    pub fn as_str(&self) -> &str
        ensures { result.now ≡ string_bytes self.now.0 }
    {
        self.0.as_str()
    }

    /// Another one of the same text; `OutOfMemory` where it finds no memory.
    pub fn clone(&self, alloc: Global) -> Result<Symbol, Error>
        ensures ok { IfOk result (λ s. string_bytes s.0 ≡ string_bytes self.now.0) }
        ensures err { IfErr result (λ e. e ≡ OutOfMemory) }
    {
        Symbol::from_str(alloc, self.as_str())
    }
}

impl From<String> for Symbol {
    ghost from_gives = { λ text s. s.0 ≡ text };

    fn from(text: String) -> Symbol {
        Symbol::new(text)
    }
}

impl Deref for Symbol {
    type Target = String;

    ghost deref_gives = { λ s text. text ≡ s.0 };

    #[inline]
    fn deref(&self) -> &String {
        &self.0
    }
}

impl DerefMut for Symbol {
    ghost use Rattle.std.specs.Borrow.{Lends, sem};
    ghost use Rattle.amqp_types.specs.contracts.symbol.Symbol.{the_row};
    ghost use Rattle.amqp_types.specs.Rows.{text_row};

    ghost deref_mut_gives = { λ s text. text ≡ s.0 };

    #[inline]
    fn deref_mut(&mut self) -> &mut String
        ensures* writes_back { sem 𝓛 (Lends the_row text_row self.entry result (λ text.
            record { 0 = text })) }
        ensures shows { result.now ≡ self.old.0 }
    {
        &mut self.0
    }
}

impl Typed for Symbol {
    ghost meaning = { scalar_of as_symbol true (λ v. string_bytes v.0) };
}

impl RoundTrip for Symbol {
    ghost reads_back = { refl };
}

impl NeverNull for Symbol {
    ghost never_null = { refl };
}

/// A symbolic value whose text stands elsewhere (part 1, section 1.6.21). It is written as a
/// symbol, and takes a string too.
#[derive(Debug, Clone, PartialEq, Eq, PartialOrd, Ord, Hash, Drop)]
pub struct SymbolRef<'a>(pub &'a str);

impl<'a> SymbolRef<'a> {
    /// Its text.
    #[inline(always)]
    pub fn as_str(&self) -> &'a str
        ensures { result.now ≡ self.now.0.now }
    {
        let SymbolRef(own) = self;
        *own
    }
}

impl<'a> From<&'a str> for SymbolRef<'a> {
    ghost from_gives = { λ text s. s.0.now ≡ text.now };

    fn from(text: &'a str) -> SymbolRef<'a> {
        SymbolRef(text)
    }
}

impl<'a> Deref for SymbolRef<'a> {
    type Target = &'a str;

    ghost deref_gives = { λ s text. text.now ≡ s.0.now };

    #[inline]
    fn deref(&self) -> &&'a str {
        &self.0
    }
}

impl Typed for SymbolRef<'_> {
    ghost meaning = { a_symbol_ref (λ v. v.0.now) };
}

impl RoundTrip for SymbolRef<'_> {
    ghost reads_back = { refl };
}

impl NeverNull for SymbolRef<'_> {
    ghost never_null = { refl };
}
