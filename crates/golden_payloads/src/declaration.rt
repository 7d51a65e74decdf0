//! A structure with many members, which a type that a generator writes may have.

use crate::model::Address;
use json_payloads::{
    DateTime, JsonForm, JsonPayload, ReadError, Value, begin_object, end_object, read_object,
    values,
};
use smithy_types::{Blob, List, OutOfMemory, Text};
use std::alloc::Global;

/// The kind of a declaration.
pub const DECLARATION: u32 = 2;

/// A declaration for customs.
#[derive(Debug, Drop)]
pub struct Declaration {
    /// What it is filed under.
    pub number: Text,
    /// Who sends the goods.
    pub exporter: Text,
    /// Where the exporter lives.
    pub exporter_address: Option<Address>,
    /// Who receives them.
    pub importer: Text,
    /// Where the importer lives.
    pub importer_address: Option<Address>,
    /// What the goods are, item by item.
    pub contents: List<Text>,
    /// What they weigh.
    pub weight_grams: u64,
    /// How long the parcel is.
    pub length_millimeters: u32,
    /// How wide it is.
    pub width_millimeters: u32,
    /// How high it is.
    pub height_millimeters: u32,
    /// What the goods are worth.
    pub value_cents: u64,
    /// The currency of all amounts.
    pub currency: Text,
    /// The country where the goods were made.
    pub origin: Text,
    /// The country that they go to.
    pub destination: Text,
    /// The countries between.
    pub transit: List<Text>,
    /// The number in the tariff.
    pub tariff: Option<Text>,
    /// The duty that was paid.
    pub duty_cents: Option<u64>,
    /// The tax that was paid.
    pub tax_cents: Option<u64>,
    /// What the parcel is insured for.
    pub insured_cents: Option<u64>,
    /// The goods are for sale.
    pub commercial: bool,
    /// The goods come back.
    pub returned: bool,
    /// The goods are dangerous.
    pub dangerous: bool,
    /// The goods perish.
    pub perishable: bool,
    /// The invoice's number.
    pub invoice: Option<Text>,
    /// The invoice as an image.
    pub invoice_image: Option<Blob>,
    /// The number of a license to export.
    pub license: Option<Text>,
    /// A certificate of origin.
    pub certificate: Option<Blob>,
    /// Who signed the declaration.
    pub signed_by: Text,
    /// When it was signed.
    pub signed: DateTime,
    /// What else is to be said.
    pub remarks: Option<List<Text>>,
}

impl JsonForm for Declaration {
    ghost use Rattle.golden_payloads.specs.Declaration.{declaration};

    ghost form = { declaration };

    fn print(&self, alloc: Global) -> Result<Value, OutOfMemory> {
        let object = begin_object(
            alloc,
            &[
                "number",
                "exporter",
                "exporterAddress",
                "importer",
                "importerAddress",
                "contents",
                "weightGrams",
                "lengthMillimeters",
                "widthMillimeters",
                "heightMillimeters",
                "valueCents",
                "currency",
                "origin",
                "destination",
                "transit",
                "tariff",
            ],
            &values!(
                &self.number,
                &self.exporter,
                &self.exporter_address,
                &self.importer,
                &self.importer_address,
                &self.contents,
                &self.weight_grams,
                &self.length_millimeters,
                &self.width_millimeters,
                &self.height_millimeters,
                &self.value_cents,
                &self.currency,
                &self.origin,
                &self.destination,
                &self.transit,
                &self.tariff
            ),
        )?;
        let printed = end_object(
            object,
            &[
                "dutyCents",
                "taxCents",
                "insuredCents",
                "commercial",
                "returned",
                "dangerous",
                "perishable",
                "invoice",
                "invoiceImage",
                "license",
                "certificate",
                "signedBy",
                "signed",
                "remarks",
            ],
            &values!(
                &self.duty_cents,
                &self.tax_cents,
                &self.insured_cents,
                &self.commercial,
                &self.returned,
                &self.dangerous,
                &self.perishable,
                &self.invoice,
                &self.invoice_image,
                &self.license,
                &self.certificate,
                &self.signed_by,
                &self.signed,
                &self.remarks
            ),
        )?;
        Ok(printed)
    }

    fn read(alloc: Global, value: &Value) -> Result<Declaration, ReadError> {
        read_object!(alloc, value => Declaration {
            number: "number",
            exporter: "exporter",
            exporter_address: "exporterAddress",
            importer: "importer",
            importer_address: "importerAddress",
            contents: "contents",
            weight_grams: "weightGrams",
            length_millimeters: "lengthMillimeters",
            width_millimeters: "widthMillimeters",
            height_millimeters: "heightMillimeters",
            value_cents: "valueCents",
            currency: "currency",
            origin: "origin",
            destination: "destination",
            transit: "transit",
            tariff: "tariff",
            duty_cents: "dutyCents",
            tax_cents: "taxCents",
            insured_cents: "insuredCents",
            commercial: "commercial",
            returned: "returned",
            dangerous: "dangerous",
            perishable: "perishable",
            invoice: "invoice",
            invoice_image: "invoiceImage",
            license: "license",
            certificate: "certificate",
            signed_by: "signedBy",
            signed: "signed",
            remarks: "remarks",
        })
    }
}

impl JsonPayload for Declaration {
    ghost use Rattle.std.specs.Prelude.{refl};

    ghost nests = { refl };
}
