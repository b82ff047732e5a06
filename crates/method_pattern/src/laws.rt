// A text spells one pattern at most.
ghost use Rattle.method_pattern.specs.Texts.{TypePatternsAreOne, MethodPatternsAreOne};

/// A text spells one type pattern at most.
pub fn type_patterns_are_one()
    ensures { TypePatternsAreOne }
{}

/// A text spells one method pattern at most.
pub fn method_patterns_are_one()
    ensures { MethodPatternsAreOne }
{}
