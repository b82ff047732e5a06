// Laws of the edits of recipes: functions that do nothing, whose clauses hold of every file.
ghost use Rattle.conf_recipes.specs.RecipeLaws.{AddedStandsAtTheEnd, DeletesLeaveTheRest};

/// The new text of a properties file that isn't too large, with the edits of AddProperty, is the file and behind it the
/// new entry with its line ends; or the file, where an entry has the key or the last one goes on into nothing.
pub fn added_entries_stand_at_the_end()
    ensures { AddedStandsAtTheEnd }
{
    properties_tree::parts_are_the_file();
    properties_tree::files_have_trees();
}

/// The new text of a properties file that isn't too large, with the edits of DeleteProperty, is the file without the
/// entries that have the key; of what stands before each of these the part up to the last line end stays.
pub fn deletes_leave_the_rest()
    ensures { DeletesLeaveTheRest }
{
    properties_tree::parts_are_the_file();
    properties_tree::files_have_trees();
}
