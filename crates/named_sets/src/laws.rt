ghost use Rattle.named_sets.specs.Written.{WrittenSetIsRead};

/// A set that is written is read as that set.
pub fn written_set_is_read()
    ensures { WrittenSetIsRead }
{}
