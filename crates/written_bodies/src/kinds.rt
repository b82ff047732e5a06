// The kinds of nodes that members are made of.
use java_reader::Kind;

pub(crate) const CLASS: u16 = Kind::Class as u16;

pub(crate) const INTERFACE: u16 = Kind::Interface as u16;

pub(crate) const ENUM: u16 = Kind::Enum as u16;

pub(crate) const ANNOTATION_TYPE: u16 = Kind::AnnType as u16;

pub(crate) const MEMBER: u16 = Kind::Member as u16;

pub(crate) const MEMBER_REST: u16 = Kind::MemberRest as u16;

pub(crate) const GENERIC: u16 = Kind::Generic as u16;

pub(crate) const AFTER_GENERIC: u16 = Kind::AfterGen as u16;

pub(crate) const AFTER_TYPE: u16 = Kind::AfterType as u16;

pub(crate) const METHOD: u16 = Kind::Method as u16;

pub(crate) const FIELD: u16 = Kind::Field as u16;

pub(crate) const DIMENSIONS: u16 = Kind::Dims as u16;

pub(crate) const DECLARATOR: u16 = Kind::Declarator as u16;
