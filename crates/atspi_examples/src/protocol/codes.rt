//! What a message is coded as: the tuple of its fields. Any code would do from which a message is read back, which the
//! code's own type says.

ghost use Rattle.std.specs.Prelude.{◌≡◌, ◌∷◌, [], None, Some, codes, false, true};
ghost use Rattle.atspi_types.specs.Data.{text_data};
ghost use Rattle.atspi_types.specs.declared.fault.Order.TheVariants as order;
ghost use Rattle.atspi_protocol.specs.ends.DataCode.{envelope_code};
ghost use Rattle.atspi_protocol.specs.ends.Messages.{call_to, reply_to, returns};
ghost use Rattle.atspi_examples.specs.protocol.Coding.{fields};

/// A message is the tuple of its fields.
pub fn messages()
    ensures call { envelope_code.code
        (record (call_to (codes "a.b") (codes "/p") (codes "i.f") (codes "M") (text_data (codes "x") ∷ []))
        { serial = 7 })
        ≡ fields.code (
          true,
          (
            1,
            (
              0,
              (
                7,
                (
                  Some (codes "/p"),
                  (
                    Some (codes "i.f"),
                    (
                      Some (codes "M"),
                      (None, (None, (Some (codes "a.b"), (None, text_data (codes "x") ∷ [])))),
                    ),
                  ),
                ),
              ),
            ),
          ),
        ) }
    ensures reply { envelope_code.code
        (record (reply_to (codes ":1.1") 7 (returns []))
        { order = order.Big; error = Some (codes "e.e"); sender = Some (codes ":1.2") })
        ≡ fields.code (
          false,
          (
            2,
            (
              1,
              (
                0,
                (
                  None,
                  (
                    None,
                    (
                      None,
                      (
                        Some (codes "e.e"),
                        (Some 7, (Some (codes ":1.1"), (Some (codes ":1.2"), []))),
                      ),
                    ),
                  ),
                ),
              ),
            ),
          ),
        ) }
{}
