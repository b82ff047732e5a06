// What scanners find.
use rw_base::Text;
use sqlite_items::Items;

/// What the scanner of a recipe has found in the files of a state: texts in order, each once.
#[derive(Debug, Drop)]
pub struct ScanValue {
    pub texts: Items<Text>,
}
