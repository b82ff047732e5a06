// Laws of spelled texts: functions that do nothing, whose clauses hold of every text.
ghost use Rattle.yaml_texts.specs.Laws.{PlainTextsArePlainScalars, KeysReadBack, ValuesReadBack, FlowScalarsReadBack};

/// A text is written as it stands where the definition of leaves cuts the whole of it as one plain scalar.
pub fn plain_texts_are_plain_scalars()
    ensures { PlainTextsArePlainScalars }
{}

/// A spelled text is one leaf, and its text is the text again: a KEY before `:` with a blank, a line end or the end
/// behind it, and a SCALAR or, in brackets, an FSCALAR before what ends one. It may not stand right behind a key, nor
/// at the start of a line where it begins with `---` or `...` as documents do.
pub fn spelled_texts_read_back()
    ensures keys { KeysReadBack }
    ensures values { ValuesReadBack }
    ensures flow { FlowScalarsReadBack }
{}
