// The types that a file declares, as they are written.
ghost use Rattle.std.specs.Prelude.{◌≡◌, length};
ghost use Rattle.rw_base.specs.Arena.{end_of};

use crate::reads::{What, read};
use crate::written::{put_field, put_method, put_name, put_params, put_type, put_types};
use class_table::skeleton;
use declared_types::{DeclaredType, ScopeParams};
use examples_base::{Answer, put_refused};
use j_names::{EnclosingClass, ImportRow, UnitContext};
use java_reader::JavaReader;
use jtypes::{ClassKind, Names};
use rw_base::Tree;
use std::alloc::Global;

// ---- the place of a file's types

// Writes an import.
fn put_import(row: &ImportRow, out: &mut Answer) {
    out.put(if row.is_static {
        "import static "
    } else {
        "import "
    });
    put_name(&row.name, out);
    out.put(if row.on_demand { ".*; " } else { "; " });
}

// Writes the package, if it has a name, and the imports.
fn put_place(cx: &UnitContext, out: &mut Answer) {
    if !cx.package.as_slice().is_empty() {
        out.put("package ");
        put_name(&cx.package, out);
        out.put("; ");
    }
    for row in cx.imports.as_slice() {
        put_import(row, out);
    }
}

// Whether two imports are the same.
fn is_same_import(a: &ImportRow, b: &ImportRow) -> bool {
    a.name.is(&b.name) && a.is_static == b.is_static && a.on_demand == b.on_demand
}

// Refuses the answer where two types of a file have not the same package and imports.
fn compare_places(a: &UnitContext, b: &UnitContext, out: &mut Answer) {
    if !a.package.is(&b.package) || a.imports.len() != b.imports.len() {
        out.refuse("place");
    }
    for (one, other) in a.imports.as_slice().iter().zip(b.imports.as_slice()) {
        if !is_same_import(one, other) {
            out.refuse("import");
        }
    }
}

// ---- one declared type

// The words of a kind.
fn kind_words(kind: ClassKind) -> &'static str {
    match kind {
        ClassKind::Class => "class ",
        ClassKind::Interface => "interface ",
        ClassKind::Enum => "enum ",
        ClassKind::Annotation => "@interface ",
    }
}

// Writes a class around a type, and refuses the answer where its type parameters have not the names of the scope's.
fn put_around(class: &EnclosingClass, scope: &ScopeParams, out: &mut Answer) {
    put_name(&class.name, out);
    put_params(scope.params.as_slice(), out);
    if class.type_params.len() != scope.params.len() {
        out.refuse("type parameters");
    }
    for (name, param) in class
        .type_params
        .as_slice()
        .iter()
        .zip(scope.params.as_slice())
    {
        if !name.is(&param.name) {
            out.refuse("type parameter");
        }
    }
}

// Writes the classes around a type.
fn put_all_around(declared: &DeclaredType, out: &mut Answer) {
    let classes = declared.cx.enclosing.as_slice();
    let scopes = declared.around.as_slice();
    if classes.len() != scopes.len() {
        out.refuse("classes around");
    }
    for (at, (class, scope)) in classes.iter().zip(scopes).enumerate() {
        out.put(if at == 0 { " in " } else { ", " });
        put_around(class, scope, out);
    }
}

// Writes the supertypes of a type.
fn put_supertypes(declared: &DeclaredType, out: &mut Answer) {
    if let Some(superclass) = &declared.superclass {
        out.put(" extends ");
        put_type(superclass, out);
    }
    if declared.interfaces.len() > 0 {
        out.put(" implements ");
        put_types(declared.interfaces.as_slice(), out);
    }
}

// Writes what stands before the members of a type.
fn put_head(declared: &DeclaredType, out: &mut Answer) {
    out.put(if declared.is_private { "private " } else { "" });
    out.put(kind_words(declared.kind));
    put_name(&declared.name, out);
    put_params(declared.type_params.as_slice(), out);
    if !declared.top.is(&declared.name) {
        out.put(" top ");
        put_name(&declared.top, out);
    }
    put_all_around(declared, out);
    put_supertypes(declared, out);
}

// Writes the fields of a type.
fn put_fields(declared: &DeclaredType, out: &mut Answer) {
    for field in declared.fields.as_slice() {
        out.put(" ");
        put_field(field, out);
        out.put(";");
    }
}

// Writes the methods of a type.
fn put_methods(declared: &DeclaredType, out: &mut Answer) {
    for method in declared.methods.as_slice() {
        out.put(" ");
        put_method(method, out);
        out.put(";");
    }
}

/// Writes a declared type.
pub fn put_one(declared: &DeclaredType, out: &mut Answer) {
    put_head(declared, out);
    out.put(" {");
    put_fields(declared, out);
    put_methods(declared, out);
    out.put(" }");
}

// ---- those of a file

// How many fields and how many methods types have together.
fn members_of(types: &[DeclaredType]) -> (usize, usize) {
    let mut fields = 0usize;
    let mut methods = 0usize;
    for declared in types {
        fields = fields.saturating_add(declared.fields.len());
        methods = methods.saturating_add(declared.methods.len());
    }
    (fields, methods)
}

/// Writes how many types there are, and how many fields and methods they have together.
pub fn put_counts(types: &[DeclaredType], out: &mut Answer) {
    let (fields, methods) = members_of(types);
    out.put_number(types.len());
    out.put(" types, ");
    out.put_number(fields);
    out.put(" fields, ");
    out.put_number(methods);
    out.put(" methods");
}

// Writes the declared types of a file, behind the place that they have in common.
fn put_all(first: &DeclaredType, types: &[DeclaredType], out: &mut Answer) {
    put_place(&first.cx, out);
    for (at, declared) in types.iter().enumerate() {
        out.put_between(at, " | ");
        put_one(declared, out);
        compare_places(&first.cx, &declared.cx, out);
    }
}

/// Writes the declared types of a file, or where there are more than 20 or more than 20 members, how many there are.
pub fn put_or_count(types: &[DeclaredType], out: &mut Answer) {
    let Some(first) = types.first() else {
        out.put("none");
        return;
    };
    let (fields, methods) = members_of(types);
    if types.len() <= 20 && fields <= 20 && methods <= 20 {
        put_all(first, types, out);
    } else {
        put_counts(types, out);
    }
}

// Writes the declared types of a tree.
fn put_skeleton(alloc: Global, tree: &Tree, bytes: &[u8], out: &mut Answer)
    requires { length bytes.now ≡ end_of tree.now }
{
    let mut names = Names::new(alloc);
    match skeleton(alloc, tree, bytes, &mut names) {
        Ok(skeleton) => put_or_count(skeleton.types.as_slice(), out),
        Err(_) => out.refuse("memory"),
    }
}

/// Writes the declared types of a file, or where and why it is refused.
pub fn put_declared(alloc: Global, reader: &JavaReader, text: &[u8], out: &mut Answer) {
    match read(reader, What::File, text) {
        Ok(tree) => put_skeleton(alloc, &tree, text, out),
        Err(fault) => put_refused(fault, out),
    }
}
