// The kinds of nodes that the declarations of a file are made of.
use java_reader::Kind;

pub(crate) const PACKAGE: u16 = Kind::Package as u16;

pub(crate) const QUALIFIED_NAME: u16 = Kind::QName as u16;

pub(crate) const IMPORT: u16 = Kind::Import as u16;

pub(crate) const IMPORT_DOT: u16 = Kind::ImportDot as u16;

pub(crate) const TYPE_DECL: u16 = Kind::TypeDecl as u16;

pub(crate) const MODIFIER: u16 = Kind::Modifier as u16;

pub(crate) const CLASS: u16 = Kind::Class as u16;

pub(crate) const INTERFACE: u16 = Kind::Interface as u16;

pub(crate) const ENUM: u16 = Kind::Enum as u16;

pub(crate) const ENUM_CONSTANT: u16 = Kind::Const as u16;

pub(crate) const ANNOTATION_TYPE: u16 = Kind::AnnType as u16;

pub(crate) const TYPES: u16 = Kind::Types as u16;

pub(crate) const TYPE_PARAMS: u16 = Kind::TypeParams as u16;

pub(crate) const TYPE_PARAM: u16 = Kind::TypeParam as u16;

pub(crate) const BODY: u16 = Kind::Body as u16;

pub(crate) const MEMBER: u16 = Kind::Member as u16;

pub(crate) const MEMBER_REST: u16 = Kind::MemberRest as u16;

pub(crate) const GENERIC: u16 = Kind::Generic as u16;

pub(crate) const AFTER_GENERIC: u16 = Kind::AfterGen as u16;

pub(crate) const AFTER_TYPE: u16 = Kind::AfterType as u16;

pub(crate) const METHOD: u16 = Kind::Method as u16;

pub(crate) const FIELD: u16 = Kind::Field as u16;

pub(crate) const DIMENSIONS: u16 = Kind::Dims as u16;

pub(crate) const DECLARATOR: u16 = Kind::Declarator as u16;

pub(crate) const PARAM: u16 = Kind::Param as u16;

pub(crate) const TYPE: u16 = Kind::Type as u16;

pub(crate) const CLASS_TYPE: u16 = Kind::ClassType as u16;
