use ap_value::{Boxed, Bytes, Seq, Symbol};

/// A form, and the place of its first byte.
#[cycle(forms)]
#[derive(Debug, Drop)]
pub struct Form {
    pub place: usize,
    pub body: Body,
}

/// What a form is.
#[cycle(forms)]
#[derive(Debug, Drop)]
pub enum Body {
    Int(i128),
    Chr(u8),
    Str(Bytes),
    Sym(Symbol),
    List(Seq<Form>),
    /// `(a b . c)`: at least one form before the dot.
    Dotted(Seq<Form>, Boxed<Form>),
    /// `'x`
    Quoted(Boxed<Form>),
    /// `` `x ``
    Quasi(Boxed<Form>),
    /// `,x`
    Comma(Boxed<Form>),
    /// `,@x`
    CommaAt(Boxed<Form>),
}
