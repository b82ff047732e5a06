// Laws of the format: functions that do nothing, whose clauses hold of every file, key and value.
ghost use Rattle.properties_tree.specs.Laws.{PartsAreTheFile, FilesHaveTrees, EntriesHaveFourLeaves};
ghost use Rattle.properties_tree.specs.Laws.{LeafClassesDiffer, NodeKindsDiffer};
ghost use Rattle.properties_tree.specs.Laws.{KeysReadBack, SomeKeysReadBack, KeysReadBackAlone};
ghost use Rattle.properties_tree.specs.Laws.{ValuesReadBack, ValuesReadBackBehindSome, FilesReadBack};

/// The parts of a file's entries and what stands behind them, joined, are its bytes: nothing is lost.
pub fn parts_are_the_file()
    ensures { PartsAreTheFile }
{}

/// The tree of a file that isn't too large is one, and has four leaves for each entry and the end.
pub fn files_have_trees()
    ensures tree { FilesHaveTrees }
    ensures leaves { EntriesHaveFourLeaves }
{}

/// No two classes of leaves are one number, and no two kinds of nodes are.
pub fn classes_differ()
    ensures leaves { LeafClassesDiffer }
    ensures nodes { NodeKindsDiffer }
{}

/// A spelled key with `=` or `:` behind it reads back as that key, whatever text follows. Behind a key that isn't empty
/// a space, a tab or a form feed does as well, and so does nothing, before LF, CR LF, CR and the end of the file.
pub fn keys_read_back()
    ensures equals { KeysReadBack 61 }
    ensures colon { KeysReadBack 58 }
    ensures space { SomeKeysReadBack 32 }
    ensures tab { SomeKeysReadBack 9 }
    ensures form_feed { SomeKeysReadBack 12 }
    ensures alone { KeysReadBackAlone }
{}

/// A spelled value reads back as that value before LF, CR LF, CR and the end of the file, behind a spelled key and `=`
/// or `:`, or behind one that isn't empty and a space, a tab or a form feed. The entry ends with that line, and the
/// lines behind it are read as if they were a file of their own.
pub fn values_read_back()
    ensures equals { ValuesReadBack 61 }
    ensures colon { ValuesReadBack 58 }
    ensures space { ValuesReadBackBehindSome 32 }
    ensures tab { ValuesReadBackBehindSome 9 }
    ensures form_feed { ValuesReadBackBehindSome 12 }
{}

/// A file with a line for each pair of a key and a value, both spelled, reads back as those pairs.
pub fn files_read_back()
    ensures { FilesReadBack }
{}
