// Laws of Java leaves.
ghost use Rattle.std.specs.Prelude.{◌≡◌, ◌≢◌, ℕ, ◌+◌, ◌-◌, Bool, true, List, ◌∷◌, ◌++◌, take, drop, Option, AllPairs};
ghost use Rattle.rw_base.specs.declared.tree.Leaf.{Leaf};
ghost use Rattle.rw_base.specs.declared.leaves.Bad.{Bad};
ghost use Rattle.java_lex.specs.Leaves.{AreJavaLeaves, Cuts};
ghost use Rattle.java_lex.specs.Tiles.{AreTiles};
ghost use Rattle.java_lex.specs.Laws.{AreBytes, IsAloneAt, LeavesBeginWith, offset_leaves, offset_bad};
ghost use Rattle.java_lex.specs.Classes.{classes};
ghost use Rattle.java_lex.specs.Segments.{AreMarked, AreSameButClasses, ends_segment};

/// The classes are distinct numbers.
pub fn classes_differ()
    ensures { AllPairs (λ a b. a ≢ b) classes }
{}

/// A file of any length has leaves, up to its end or to a bad place.
pub fn leaves_are_there()
    ensures { (bytes : List ℕ) → AreBytes bytes
        → (leaves : List Leaf) × (bad : Option Bad) × AreJavaLeaves bytes leaves bad }
{}

/// A file has one list of leaves and one bad place.
pub fn leaves_are_one()
    ensures { (bytes : List ℕ) (leaves others : List Leaf) (bad worse : Option Bad) → AreBytes bytes
        → AreJavaLeaves bytes leaves bad → AreJavaLeaves bytes others worse → (leaves ≡ others) × (bad ≡ worse) }
{}

/// The leaves of a file, each with its prefix, lie one behind another from the first byte to the bad place, or to the
/// end of the file where none is bad. The last of them is the end.
pub fn leaves_tile()
    ensures { (bytes : List ℕ) (leaves : List Leaf) (bad : Option Bad)
        → AreJavaLeaves bytes leaves bad → AreTiles bytes leaves bad }
{}

/// Texts that are alike up to a leaf that is `;`, `{` or `}` are cut alike up to it, whatever comes behind it.
pub fn cut_alike()
    ensures { (broken second : Bool) (from at : ℕ) (s t : List ℕ) (front more leaves : List Leaf) (l : Leaf)
        (bad worse : Option Bad) → AreBytes t
        → Cuts broken from at s (front ++ l ∷ more) bad → IsAloneAt at s l
        → take (l.to - at) s ≡ take (l.to - at) t → Cuts second from at t leaves worse
        → LeavesBeginWith leaves front l }
{}

/// A text is cut alike wherever it stands: so many bytes further on the leaves are the same, offset by so many bytes.
pub fn cut_anywhere()
    ensures { (by : ℕ) (broken : Bool) (from at : ℕ) (s : List ℕ) (leaves : List Leaf) (bad : Option Bad)
        → Cuts broken from at s leaves bad
        → Cuts broken (from + by) (at + by) s (offset_leaves by leaves) (offset_bad by bad) }
{}

/// What stands behind a leaf that is `;`, `{` or `}` is cut as a text of its own that begins there.
pub fn cut_behind()
    ensures { (broken : Bool) (from at : ℕ) (s : List ℕ) (front more : List Leaf) (l : Leaf) (bad : Option Bad)
        → Cuts broken from at s (front ++ l ∷ more) bad → IsAloneAt at s l
        → Cuts broken l.to l.to (drop (l.to - at) s) more bad }
{}

/// A text up to a leaf that is `;`, `{` or `}` and any text behind it are together cut into the leaves of both.
pub fn cut_together()
    ensures { (broken second : Bool) (from at : ℕ) (s t : List ℕ) (front more leaves : List Leaf) (l : Leaf)
        (bad worse : Option Bad) → AreBytes s → AreBytes t
        → Cuts broken from at s (front ++ l ∷ more) bad → IsAloneAt at s l → Cuts second l.to l.to t leaves worse
        → Cuts second from at (take (l.to - at) s ++ t) (front ++ l ∷ leaves) worse }
{}

/// A list of leaves has one list of marks.
pub fn marks_are_one()
    ensures { (leaves marked others : List Leaf) → AreMarked leaves marked → AreMarked leaves others → marked ≡ others }
{}

/// Marks change the classes of leaves alone.
pub fn marks_keep_leaves()
    ensures { (leaves marked : List Leaf) → AreMarked leaves marked → AreSameButClasses leaves marked }
{}

/// The marked leaves of a file lie as its leaves do.
pub fn marks_keep_tiles()
    ensures { (bytes : List ℕ) (leaves marked : List Leaf) (bad : Option Bad)
        → AreTiles bytes leaves bad → AreMarked leaves marked → AreTiles bytes marked bad }
{}

/// Leaves up to one that is `;`, `{` or `}` and leaves behind it are together marked as each of them.
pub fn marks_join()
    ensures { (xs ys ms ns : List Leaf) → ends_segment xs ≡ true → AreMarked xs ms → AreMarked ys ns
        → AreMarked (xs ++ ys) (ms ++ ns) }
{}

/// No mark depends on what stands behind the next `;`, `{` or `}`, nor on what stands before the last: marked leaves
/// that are cut behind such a leaf are two parts, marked as each of them alone.
pub fn marks_part()
    ensures { (xs ys marked : List Leaf) → ends_segment xs ≡ true → AreMarked (xs ++ ys) marked
        → (ms ns : List Leaf) × (marked ≡ ms ++ ns) × AreMarked xs ms × AreMarked ys ns }
{}

/// Marks are the same wherever the leaves stand.
pub fn marks_anywhere()
    ensures { (by : ℕ) (leaves marked : List Leaf) → AreMarked leaves marked
        → AreMarked (offset_leaves by leaves) (offset_leaves by marked) }
{}
