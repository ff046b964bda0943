// What `help` prints.

pub const HELP: &str = "tebulgai: values for the overrides of a shader module

  tebulgai literals SETTINGS OVERRIDES   what each override becomes under a settings file
  tebulgai pack TEXT OUT                 make the settings file OUT from a text
  tebulgai unpack SETTINGS               print a settings file as a text that pack takes
  tebulgai check LISTING                 whether the tables of a shader are well formed, and what they hold
  tebulgai print LISTING                 print a listing as it is written, with the index of each item
  tebulgai fold LISTING [--pile PILE] [--tree N]..
                                         what each expression of a module without overrides becomes
  tebulgai settle LISTING SETTINGS [--pile PILE]
                                         settle a module: its finished tables, what each override became
  tebulgai help                          print this

A text of settings has a line `key = value` for each. A key is what stands before the first =,
or is in quotes, with \\xNN for a byte; the empty key is \"\". A value is a decimal number, inf or NaN.
A text of overrides has a line `id name scalar init` for each, with - for no id, no name or no init.
A scalar is bool, i16, u16, i32, u32, f16, f32 or f64, or as sint8 another kind and width in bytes.
An init is `init N`, where N is the handle of an expression.
Blank lines and lines that begin with # are skipped.
A pile is keep, keep,whole or keep,find, or keep,whole,find (if none is given) or keep,find,whole.

Refusals: 1 malformed file, 2 repeated key, 6 key that no override takes, 7 neither id nor name,
8 no value and no init, 9 value not finite, 10 value does not fit, 11 no literal of that scalar.
The status is 0 where nothing is refused, and else 1.
";
