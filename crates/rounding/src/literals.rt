// A typed literal: naga's `Literal`, with floats held by their bits.
ghost use Rattle.std.specs.Prelude.{◌≡◌};
ghost use Rattle.rounding.specs.Literals.{type_of, literal_bits_of, words_of};

// The types are numbered from 0 in this order. A float is its bit pattern, so that no NaN's
// payload is lost and two literals are equal exactly if their bits are.
#[derive(Clone, Copy, PartialEq, Eq, Debug)]
pub enum Literal {
    Bool(bool),
    I16(i16),
    U16(u16),
    I32(i32),
    U32(u32),
    F16(u16),
    F32(u32),
    F64(u64),
    I64(i64),
    U64(u64),
    AbstractInt(i64),
    AbstractFloat(u64),
}

impl Literal {
    // The type's number, from 0 for Bool to 11 for AbstractFloat. An arm each: `as` takes no enum
    // whose variants hold something.
    pub fn type_number(&self) -> u32
        ensures { result ≡ type_of self.now }
    {
        match *self {
            Literal::Bool(_) => 0,
            Literal::I16(_) => 1,
            Literal::U16(_) => 2,
            Literal::I32(_) => 3,
            Literal::U32(_) => 4,
            Literal::F16(_) => 5,
            Literal::F32(_) => 6,
            Literal::F64(_) => 7,
            Literal::I64(_) => 8,
            Literal::U64(_) => 9,
            Literal::AbstractInt(_) => 10,
            Literal::AbstractFloat(_) => 11,
        }
    }

    // The bits of the type's width, zero above.
    pub fn bits(&self) -> u64
        ensures { result ≡ literal_bits_of self.now }
    {
        match *self {
            Literal::Bool(b) => b as u64,
            Literal::I16(x) => x.cast_unsigned() as u64,
            Literal::I32(x) => x.cast_unsigned() as u64,
            Literal::U16(x) | Literal::F16(x) => x as u64,
            Literal::U32(x) | Literal::F32(x) => x as u64,
            // an arm each: one for two variants of signed numbers gets no proof
            Literal::I64(x) => x.cast_unsigned(),
            Literal::AbstractInt(x) => x.cast_unsigned(),
            Literal::U64(x) | Literal::F64(x) | Literal::AbstractFloat(x) => x,
        }
    }

    // The type's number, the low 32 bits and the high 32 bits.
    pub fn words(&self) -> [u32; 3]
        ensures { result ≡ words_of self.now }
    {
        let bits = self.bits();
        [
            self.type_number(),
            (bits % 0x1_0000_0000) as u32,
            (bits / 0x1_0000_0000) as u32,
        ]
    }
}
