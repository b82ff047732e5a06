// What a world knows of a class.
ghost use Rattle.std.specs.Prelude.{◌≡◌, IfOk};
ghost use Rattle.std.specs.Option.{option_copied};
ghost use Rattle.class_world.specs.Rows.{field_at, methods_at, IsRow};

use crate::by_name::ByName;
use jtypes::{FieldSig, Header, MethodSig, Name};
use rw_base::Mem;

/// The header of a class and, by name, the fields and methods that it declares.
#[derive(Drop)]
pub(crate) struct ClassRow {
    pub(crate) header: Header,
    fields: ByName<FieldSig>,
    methods: ByName<MethodSig>,
}

impl ClassRow {
    /// The row of a class with these members: of two fields of one name the first counts, and methods of one name stand
    /// in the order of the list.
    pub(crate) fn new(
        header: Header,
        fields: Vec<FieldSig>,
        methods: Vec<MethodSig>,
    ) -> Mem<ClassRow>
        ensures { IfOk result (λ row. IsRow row header fields.items methods.items) }
    {
        Ok(ClassRow {
            header,
            fields: ByName::new(fields)?,
            methods: ByName::new(methods)?,
        })
    }

    /// The field of a name.
    pub(crate) fn field(&self, name: &Name) -> Option<&FieldSig>
        ensures { option_copied result ≡ field_at self.now.fields name.now }
    {
        self.fields.of_name(name).first()
    }

    /// The methods of a name, in the order of the text.
    pub(crate) fn methods(&self, name: &Name) -> &[MethodSig]
        ensures { result.now ≡ methods_at self.now.methods name.now }
    {
        self.methods.of_name(name)
    }
}
